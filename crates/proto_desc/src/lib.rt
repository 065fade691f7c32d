//! What a proto3 file describes: the tree of its descriptor, and the options that each element may have.
//!
//! The standard is `descriptor.proto`.
#![tactic(auto)]

pub mod absolute_name;
mod declared_name;
pub mod enumeration;
pub mod field;
pub mod file;
pub mod identifier;
pub mod json_name;
pub mod message;
pub mod name_kind;
mod narrowing;
pub mod oneof;
pub mod options;
mod resolved;
pub mod rules;
pub mod service;
pub mod type_name;
pub mod whole_number;

pub use declared_name::{DeclaredName, Declares};
pub use narrowing::narrow;
pub use resolved::is_resolved;
