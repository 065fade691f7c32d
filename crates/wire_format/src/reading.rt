//! Reading of a message's fields, each by its tag.

ghost use Rattle.std.specs.Prelude.{◌≡◌, ℕ, ◌++◌, [], All, Err, IfOk, List, map, option_map};
ghost use Rattle.wire_format.specs.ProgramFields.{field_bytes, field_of, value_of};
ghost use Rattle.wire_format.specs.Reading.{IsRow, IsSpelled, Spelled, Value, text_of};
ghost use Rattle.wire_format.specs.ReadingSteps.{varint_within as varint_steps, split_off as split_steps, body_at as body_steps, field_at as field_steps};
ghost use Rattle.wire_format.specs.Writing.{IsMessageField, entry_bytes, row_bytes};
ghost use Rattle.wire_format.specs.declared.field.FieldValue as rust;
ghost use Rattle.wire_format.specs.declared.reading.WireError.TheVariants as errors;

use crate::field::FieldValue;
use std::alloc::{AllocFailed, Global};
use thiserror::Error;

/// A field that was read: its number, and a value of wire type 0 or 2.
#[derive(Clone, Copy)]
pub struct Field<'a> {
    pub number: u32,
    pub value: FieldValue<'a>,
}

/// Why bytes have no list of fields: they are no row of fields, or the allocator had no memory for
/// the list.
#[derive(Debug, Drop, Error)]
pub enum WireError {
    #[error("malformed message")]
    Malformed,
    #[error("out of memory")]
    NoMemory,
}

impl<T: Drop> From<AllocFailed<T>> for WireError {
    ghost from_gives = { λ _ e. e ≡ errors.NoMemory };

    fn from(_error: AllocFailed<T>) -> WireError {
        WireError::NoMemory
    }
}

/// The varint at the front, in at most `most` bytes, and the bytes behind it. None of 2^64 or more.
fn varint_within(bytes: &[u8], most: u8) -> Option<(u64, &[u8])>
    ensures { option_map (λ x. (x.0, x.1.now)) result ≡ varint_steps most bytes.now }
{
    if most == 0 {
        return None;
    }
    let (first, rest) = bytes.split_first()?;
    if *first < 128 {
        return Some((u64::from(*first), rest));
    }
    let (high, rest) = varint_within(rest, most - 1)?;
    let value = high.checked_mul(128)?.checked_add(u64::from(*first - 128))?;
    Some((value, rest))
}

/// The first `size` bytes, and those behind them.
fn split_off(bytes: &[u8], size: u64) -> Option<(&[u8], &[u8])>
    ensures { option_map (λ x. (x.0.now, x.1.now)) result ≡ split_steps size bytes.now }
{
    if (bytes.len() as u64) < size {
        return None;
    }
    Some(bytes.split_at(size as usize))
}

/// The value at the front, by its wire type, and the bytes behind it. Groups have none.
fn body_at(wire_type: u8, number: u32, bytes: &[u8]) -> Option<(Option<Field<'_>>, &[u8])>
    ensures { option_map (λ x. (option_map field_of x.0, x.1.now)) result
        ≡ body_steps wire_type number bytes.now }
{
    match wire_type {
        0 => {
            let (value, rest) = varint_within(bytes, 10)?;
            let value = FieldValue::Varint(value);
            Some((Some(Field { number, value }), rest))
        }
        1 => {
            let (_, rest) = split_off(bytes, 8)?;
            Some((None, rest))
        }
        2 => {
            let (size, rest) = varint_within(bytes, 10)?;
            let (contents, rest) = split_off(rest, size)?;
            let value = FieldValue::Delimited(contents);
            Some((Some(Field { number, value }), rest))
        }
        5 => {
            let (_, rest) = split_off(bytes, 4)?;
            Some((None, rest))
        }
        _ => None,
    }
}

/// The field at the front, and the bytes behind it.
#[tactic(auto, unfolding(crate::specs::ReadingSteps::field_at))]
fn field_at(bytes: &[u8]) -> Option<(Option<Field<'_>>, &[u8])>
    ensures { option_map (λ x. (option_map field_of x.0, x.1.now)) result ≡ field_steps bytes.now }
{
    let (tag, rest) = varint_within(bytes, 10)?;
    let tag = u32::try_from(tag).ok()?;
    let number = tag / 8;
    if number == 0 {
        return None;
    }
    body_at((tag % 8) as u8, number, rest)
}

/// The fields of a message, in order (encoding guide, "Message Structure"). Values of eight and of
/// four bytes (wire types 1 and 5) are read over and aren't in the list.
///
/// `Malformed` says that the bytes are no row of fields: the number 0, a tag of 2^32 or more, a wire
/// type other than 0, 1, 2 and 5 (groups too), a value that is cut short, or a varint of more than
/// ten bytes or of 2^64 or more. `NoMemory` comes only where the allocator had none.
pub fn read_fields(alloc: Global, bytes: &[u8]) -> Result<Vec<Field<'_>>, WireError>
    // What is read is spelled so.
    ensures found { IfOk result (λ fields. IsRow bytes.now (map field_of fields.items)) }

    // Bytes are refused only where they spell no list of fields.
    ensures malformed { result ≡ Err errors.Malformed → (fields : List (ℕ × Value))
        → IsRow bytes.now fields → ⊥ }
{
    let mut fields = Vec::new(alloc);
    let mut rest = bytes;
    while !rest.is_empty() {
        let (field, behind) = field_at(rest).ok_or(WireError::Malformed)?;
        if let Some(field) = field {
            fields.push(field)?;
        }
        rest = behind;
    }
    Ok(fields)
}

/// Bytes spell at most one list of fields, and no spelling of a field begins another one.
pub fn fields_are_unique()
    ensures list { (bytes : List ℕ) (first second : List (ℕ × Value)) → IsRow bytes first
        → IsRow bytes second → first ≡ second }
    ensures field { (first second : Spelled) (rest : List ℕ) → IsSpelled first → IsSpelled second
        → text_of first ++ rest ≡ text_of second → rest ≡ [] }
{}

/// What is written is read again: the bytes of fields, one after the other, are a row of exactly
/// these fields. So `read_fields` gives these and no others, in their order, and doesn't call the
/// bytes malformed.
pub fn written_fields_are_read()
    // What `put_field` appends is the bytes of the field's number and its value.
    ensures field { (number : ℕ) (value : rust.FieldValue)
        → field_bytes number value ≡ entry_bytes (number, value_of value) }

    // Such bytes, one field's after the other's, are a row of these fields, and of no others.
    ensures row { (fields : List (ℕ × Value))
        → All IsMessageField fields → IsRow (row_bytes fields) fields }
    ensures only { (fields read : List (ℕ × Value))
        → All IsMessageField fields → IsRow (row_bytes fields) read → read ≡ fields }
{}
