//! Imports: which file reaches and sees which, and the order of a set of files.
//!
//! The standard is the proto3 language guide, "Importing Definitions".
#![tactic(auto)]

mod bad;
mod faults;
mod graph;
mod laws;
mod linking;
mod links;
mod order;
mod positioned;

pub use bad::{FileSpot, bad_imports};
pub use laws::links_are_unique;
pub use linking::{LinkError, link};
pub use links::{FileId, Links};
pub use order::in_name_order;
