//! The command line: what the words of a run ask for, read by `clap`.
#![tactic(auto)]

mod task;
mod words;

pub use task::{Asked, Origin, Selection, Service, Task, Verbosity, asked_of};
