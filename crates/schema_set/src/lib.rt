//! What is answered from a set of descriptors that stands in a file.
#![tactic(auto)]

mod reading;
mod set;

pub use set::compiled_set;
