//! Sources as if custom options were not there.
#![tactic(auto)]

mod braces;
mod gone;
mod language;
mod laws;
mod pieces;
mod settings;
mod shapes;
mod skipping;
mod token;
mod words;

pub use language::begins_other;
pub use laws::{plain_texts_stay, skipping_keeps_lengths, skipping_keeps_lines};
pub use skipping::skip;
