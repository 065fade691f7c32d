//! Varints and fields of the encoding guide, written and read, and what is no message.

use std::alloc::{AllocError, Global};
use wire_format::FieldValue::{Delimited, Varint};
use wire_format::{
    Field, FieldValue, WireError, field_len, put_field, put_varint, read_fields, varint_len,
};

/// Numbers, and their varints.
static VARINTS: [(u64, &[u8]); 9] = [
    (0, b"\x00"),
    (1, b"\x01"),
    (127, b"\x7F"),
    (128, b"\x80\x01"),
    (150, b"\x96\x01"),
    (18_999, b"\xB7\x94\x01"),
    (536_870_911, b"\xFF\xFF\xFF\xFF\x01"),
    (
        9_223_372_036_854_775_808,
        b"\x80\x80\x80\x80\x80\x80\x80\x80\x80\x01",
    ),
    (
        18_446_744_073_709_551_615,
        b"\xFF\xFF\xFF\xFF\xFF\xFF\xFF\xFF\xFF\x01",
    ),
];

/// A field: its number, and what it holds.
type Held = (u32, FieldValue<'static>);

/// Messages, and their fields.
static MESSAGES: [(&[u8], &[Held]); 14] = [
    (b"", &[]),
    (b"\x08\x96\x01", &[(1, Varint(150))]),
    (b"\x12\x07testing", &[(2, Delimited(b"testing"))]),
    (b"\x12\x00", &[(2, Delimited(b""))]),
    (b"\x1A\x03\x08\x96\x01", &[(3, Delimited(b"\x08\x96\x01"))]),
    (
        b"\x08\x01\x12\x01a\x08\x02",
        &[(1, Varint(1)), (2, Delimited(b"a")), (1, Varint(2))],
    ),
    // Eight and four bytes.
    (b"\x09abcdefgh\x08\x01", &[(1, Varint(1))]),
    (b"\x0Dabcd\x08\x01", &[(1, Varint(1))]),
    // Longer spellings than needed, of the tag, the value and the length.
    (b"\x88\x80\x00\x05", &[(1, Varint(5))]),
    (b"\x08\x85\x80\x80\x00", &[(1, Varint(5))]),
    (b"\x12\x81\x00a", &[(2, Delimited(b"a"))]),
    (
        b"\x08\x80\x80\x80\x80\x80\x80\x80\x80\x80\x00",
        &[(1, Varint(0))],
    ),
    // The greatest value and the greatest number.
    (
        b"\x08\xFF\xFF\xFF\xFF\xFF\xFF\xFF\xFF\xFF\x01",
        &[(1, Varint(18_446_744_073_709_551_615))],
    ),
    (b"\xF8\xFF\xFF\xFF\x0F\x00", &[(536_870_911, Varint(0))]),
];

/// What is no message.
static MALFORMED: [&[u8]; 20] = [
    // Cut short: a tag, values, a length.
    b"\x80",
    b"\x08",
    b"\x08\x80",
    b"\x09abcdefg",
    b"\x0Dabc",
    b"\x12",
    b"\x12\x02a",
    b"\x08\x01\x12\x01",
    // Groups, and wire types that there aren't.
    b"\x0B",
    b"\x0B\x0C",
    b"\x0C",
    b"\x0E",
    b"\x0F",
    // The number 0, and one of 2^29.
    b"\x00\x00",
    b"\x02\x00",
    b"\x80\x80\x80\x80\x10\x00",
    // An eleventh byte, a tenth byte of 2, and a length beyond all bytes.
    b"\x08\x80\x80\x80\x80\x80\x80\x80\x80\x80\x80\x00",
    b"\x08\xFF\xFF\xFF\xFF\xFF\xFF\xFF\xFF\xFF\x02",
    b"\x12\xFF\xFF\xFF\xFF\xFF\xFF\xFF\xFF\xFF\x01",
    // The first field is whole, the second isn't.
    b"\x08\x01\x0B",
];

/// Fields by their numbers, and what they are written as.
static FIELDS: [(u32, FieldValue<'static>, &[u8]); 3] = [
    (1, Varint(150), b"\x08\x96\x01"),
    (2, Delimited(b"testing"), b"\x12\x07testing"),
    (16, Delimited(b""), b"\x82\x01\x00"),
];

/// Whether a byte that the buffer held stands there, and these behind it.
fn is_added(out: &[u8], bytes: &[u8]) -> bool {
    out.strip_prefix(b"\xAA".as_slice()) == Some(bytes)
}

/// Whether a number's varint is put behind a byte that the buffer held.
fn is_varint(alloc: Global, value: u64, bytes: &[u8]) -> Result<bool, AllocError> {
    let mut out = vec![in alloc; 0xAA]?;
    put_varint(&mut out, value)?;
    Ok(is_added(&out, bytes) && varint_len(value) == bytes.len())
}

/// Whether a field is put behind a byte that the buffer held.
fn is_field(
    alloc: Global,
    number: u32,
    value: &FieldValue,
    bytes: &[u8],
) -> Result<bool, AllocError> {
    let mut out = vec![in alloc; 0xAA]?;
    put_field(&mut out, number, value)?;
    Ok(is_added(&out, bytes) && field_len(number, value) == bytes.len() as u64)
}

/// What writing a number adds to a buffer that holds a byte.
#[test]
fn varints_written(rt: HostRuntime) -> Result<(), AllocError> {
    for (value, bytes) in &VARINTS {
        assert!(rt; is_varint(rt.alloc(), *value, bytes)?, "{value}");
    }
    Ok(())
}

#[test]
fn fields_written(rt: HostRuntime) -> Result<(), AllocError> {
    for (number, value, bytes) in &FIELDS {
        assert!(rt; is_field(rt.alloc(), *number, value, bytes)?, "{number}");
    }
    Ok(())
}

/// Whether a field holds this.
fn holds(field: &Field, wanted: &Held) -> bool {
    let (number, value) = wanted;
    let is_same = match (field.value, *value) {
        (Varint(found), Varint(wanted)) => found == wanted,
        (Delimited(found), Delimited(wanted)) => found == wanted,
        _ => false,
    };
    is_same && field.number == *number
}

/// Whether fields hold these.
fn hold(fields: &[Field], wanted: &[Held]) -> bool {
    for (field, wanted) in fields.iter().zip(wanted) {
        if !holds(field, wanted) {
            return false;
        }
    }
    fields.len() == wanted.len()
}

/// Whether a message has these fields.
fn is_read(alloc: Global, message: &[u8], wanted: &[Held]) -> bool {
    match read_fields(alloc, message) {
        Ok(fields) => hold(&fields, wanted),
        Err(_) => false,
    }
}

#[test]
fn read(rt: HostRuntime) {
    for (message, wanted) in &MESSAGES {
        assert!(rt; is_read(rt.alloc(), message, wanted), "at {message:?}");
    }
}

#[test]
fn malformed(rt: HostRuntime) {
    for message in &MALFORMED {
        let found = read_fields(rt.alloc(), message);
        assert!(rt;
            matches!(found, Err(WireError::Malformed)),
            "at {message:?}"
        );
    }
}
