//! The command `check`: all faults of sources that can be told at once, for people.
#![tactic(auto)]

mod blocks;
mod check;
mod escaped;
mod message;
mod pages;
mod report;
mod told;
mod written;

pub use check::{check_texts, run_check};
pub use fault_report::Form;
pub use report::report_of;
pub use told::told_faults;
