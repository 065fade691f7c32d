//! The command `serve`: reflection over the sources of a folder, or over a set, by HTTP.
#![tactic(auto)]

mod journal;
mod listening;
mod serve;
mod task;

pub use serve::{end_of_run, run_serve, run_serve_set};
pub use task::ServeTask;
