//! The sources of a run: those that are given, and those that they import from a shelf.
#![tactic(auto)]

mod folders;
mod imports;
mod order;
mod reading;
mod search;
mod shelf;
mod sources;

pub use folders::{Folders, first_folder, first_text};
pub use shelf::Shelf;
pub use sources::with_imports;
