//! The rules of the language that one file alone can break.
//!
//! The standard is the proto3 language guide and specification, and `descriptor.proto` for the options.
#![tactic(auto)]

mod aliases;
mod body;
mod bounds;
mod covers;
mod each;
mod enumeration;
mod faults;
mod field_options;
mod file;
mod gathered;
mod lengths;
mod marks;
mod names;
mod numbers;
mod oneof;
mod options;
mod package;
mod ranges;
mod repeats;
mod reserved_names;
mod service;
mod settings;

pub use file::{check_faults, first_check_fault};
pub use gathered::{FIELD_MAX, Literal, VALUE_MAX, field_numbers, marked_ranges, value_numbers};
pub use marks::{MarkedNumber, MarkedRange, MarkedText};
