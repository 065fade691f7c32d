//! Fields: a tag, which has the field's number and the wire type of its value, and the value.

ghost use Rattle.std.specs.Prelude.{◌≡◌, ℕ, ◌+◌, ◌++◌, ◌<◌, ◌^◌, OnOk, OnErr, List, length, vec_capacity, vec_len};
ghost use Rattle.wire_format.specs.ProgramFields.{field_bytes};

use crate::varint::{push_varint, varint_len};
use std::alloc::AllocError;

/// What a field holds.
#[derive(Clone, Copy)]
pub enum FieldValue<'a> {
    /// Wire type 0.
    Varint(u64),
    /// Wire type 2: text, bytes or a message.
    Delimited(&'a [u8]),
}

/// Appends a field. Where there is no memory, the prefix of one may be appended.
fn push_field(out: &mut Vec<u8>, number: u32, value: &FieldValue) -> Result<(), AllocError>
    ensures appended { OnOk result (out.new.items ≡ out.old.items ++ field_bytes number value.now) }
    ensures prefix { OnErr result ((prefix : List ℕ) × (out.new.items ≡ out.old.items ++ prefix)) }
    ensures full { OnErr result
        (vec_capacity out.old < vec_len out.old + length (field_bytes number value.now)) }
{
    match value {
        FieldValue::Varint(value) => {
            push_varint(out, u64::from(number) * 8)?;
            push_varint(out, *value)
        }
        FieldValue::Delimited(bytes) => {
            push_varint(out, u64::from(number) * 8 + 2)?;
            push_varint(out, bytes.len() as u64)?;
            out.extend_from_slice(bytes)
        }
    }
}

/// How many bytes `put_field` appends.
pub fn field_len(number: u32, value: &FieldValue) -> u64
    ensures len { result ≡ length (field_bytes number value.now) }
    ensures most { result < 2 ^ 63 + 20 }
{
    match value {
        FieldValue::Varint(value) => {
            (varint_len(u64::from(number) * 8) + varint_len(*value)) as u64
        }
        FieldValue::Delimited(bytes) => {
            let head = varint_len(u64::from(number) * 8 + 2) + varint_len(bytes.len() as u64);
            head as u64 + bytes.len() as u64
        }
    }
}

/// Appends a field (encoding guide, "Message Structure" and "Length-Delimited Records"). A number above
/// 536,870,911 is written as any other, though no message can declare it.
///
/// Where there is no memory, `out` stays as it was. Where its capacity suffices, none is needed.
pub fn put_field(out: &mut Vec<u8>, number: u32, value: &FieldValue) -> Result<(), AllocError>
    ensures appended { OnOk result (out.new.items ≡ out.old.items ++ field_bytes number value.now) }
    ensures unchanged { OnErr result (out.new.items ≡ out.old.items) }
    ensures full { OnErr result
        (vec_capacity out.old < vec_len out.old + length (field_bytes number value.now)) }
{
    let start = out.len();
    let pushed = push_field(out, number, value);
    if pushed.is_err() {
        out.truncate(start);
    }
    pushed
}
