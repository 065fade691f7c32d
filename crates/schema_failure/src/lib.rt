//! Why a run of the program ends early: its line for the user, and its exit status.
#![tactic(auto)]

mod failure;
mod shown;

pub use failure::{Device, ExitStatus, Failure, Verdict, write_detail, write_failure};
pub use shown::Shown;
