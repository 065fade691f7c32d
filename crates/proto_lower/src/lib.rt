//! From the tree of a file to its descriptor, and the names that it makes on the way.
//!
//! The standard is `descriptor.proto`, and the proto3 language guide for the names that are made.
#![tactic(auto)]

mod enumeration;
mod field;
mod file;
mod item_counts;
mod laws;
mod message;
mod names;
mod oneof;
mod options;
mod reserved;
mod service;
mod shared_scope;
mod type_name;

pub use file::lower;
pub use laws::{oneof_index_is_its_own, optional_field_has_its_oneof, options_rise};
pub use names::{entry_name, oneof_name};
pub use proto_desc::json_name::json_name;
