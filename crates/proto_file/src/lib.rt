//! One file by itself: from its text to what it describes, or to its first fault, or to all of them.
//!
//! The standard is the proto3 language specification and guide.
#![tactic(auto)]

mod description;
mod laws;

pub use description::{describe, own_faults, tree_of};
pub use laws::{file_is_one_thing, places_lie_within};
