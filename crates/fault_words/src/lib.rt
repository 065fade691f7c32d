//! What a fault is about, in words: the names, the numbers and the other places that it turns on.
#![tactic(auto)]

mod budget;
mod declared;
mod expected;
mod imports;
mod known;
mod language;
mod names;
mod rules;
mod settings;
mod tokens;
mod types;
mod words;

pub use words::{File, Other, Words, words_of_faults};
