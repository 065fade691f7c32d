//! Compiling the sources of a run: what they are compiled to, or their first fault by its line and column.
#![tactic(auto)]

mod compile;
mod placing;
mod sources;

pub use compile::{compile_folder, compile_texts, told};
pub use placing::{locate, source_named};
pub use sources::sources_of;
