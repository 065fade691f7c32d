//! What the compiler writes as a set is read as what it was written of.
#![tactic(auto)]

mod laws;

pub use laws::{
    answers_stay, descriptors_are_read, descriptors_fit, written_sets_are_read,
    written_sets_are_read_alike,
};
