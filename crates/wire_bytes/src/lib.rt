//! Descriptors as bytes of the wire format.
//!
//! The standard is `descriptor.proto`. What the wire format itself is, with its writing and reading, is the crate
//! `wire_format`, of which this crate hands on what a message is written and read by.
#![tactic(auto)]

mod backward;
mod descriptor;

pub use descriptor::{file_bytes, file_bytes_within};
pub use wire_format::{Field, FieldValue, WireError, put_field, put_varint, read_fields};
