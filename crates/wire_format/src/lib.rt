//! The wire format of Protocol Buffers: varints and fields, written and read.
//!
//! The standard is the encoding guide of Protocol Buffers, "Base 128 Varints" and "Message Structure".
#![tactic(auto)]

mod field;
mod reading;
mod varint;

pub use field::{FieldValue, field_len, put_field};
pub use reading::{Field, WireError, fields_are_unique, read_fields, written_fields_are_read};
pub use varint::{put_varint, varint_is_shortest, varint_len};
