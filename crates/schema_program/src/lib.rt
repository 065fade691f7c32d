//! The program as a library: the command that the words ask for, and what a run ends with.
#![tactic(auto)]

mod program;

pub use program::run;
