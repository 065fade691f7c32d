//! All faults of sources: those of the pass that finds the first.
//!
//! The standard is the proto3 language specification and guide.
#![tactic(auto)]

mod all;
mod finding;
mod laws;
mod naming;
mod types;

pub use all::all_faults;
pub use finding::faults_of_files;
pub use laws::{file_faults_are_all, file_faults_are_placed};
