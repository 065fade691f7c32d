//! The commands that need no connection: `compile`, `answer`, `describe` and `explain`.
#![tactic(auto)]

mod commands;
mod dependencies;
mod set_writing;
mod whole_file;

pub use commands::{run_answer, run_answer_set, run_compile, run_describe, run_explain};
pub use dependencies::SetFiles;
