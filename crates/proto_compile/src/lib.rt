//! The compiler: from sources to descriptors, pass by pass.
//!
//! The standard is the proto3 language guide and specification, and `descriptor.proto`.
#![tactic(auto)]

mod analysing;
mod compiling;
mod error;
mod laws;
mod letting_go;
mod outcome;
mod pass;
mod source;
mod workers;

pub use compiling::{compile, compile_by, describe_each};
pub use error::CompileError;
pub use laws::{compilations_are_sound, compiling_is_unique};
pub use pass::list::files_by_name;
pub use pass::{IMPORTS_PASS, LENGTHS_PASS, LOCAL_PASS, NAMES_PASS, TYPES_PASS};
pub use proto_compilation::Compiled;
pub use source::Source;
pub use workers::Leftovers;
