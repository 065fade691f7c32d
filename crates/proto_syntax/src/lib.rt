//! The syntax of proto3: files as trees.
//!
//! The standard is the proto3 language specification, "Lexical Elements" to "Proto File".
#![tactic(auto)]

mod error;
mod parser;

pub use error::ParseError;
pub use parser::{at_most_one_fault, at_most_one_file, at_most_one_tree, parse};
