//! Fields that are not repeated: the last of a number counts.

ghost use Rattle.std.specs.Prelude.{◌≡◌, map};
ghost use Rattle.proto_sets.specs.Elements.{number_of, text_of};
ghost use Rattle.wire_format.specs.ProgramFields.{field_of};

use wire_format::{Field, FieldValue};

/// The text of a number, empty where there is none.
pub(crate) fn last_text<'b>(fields: &[Field<'b>], number: u32) -> &'b [u8]
    ensures { result.now ≡ text_of number (map field_of fields.now) }
{
    let mut last: &[u8] = &[];
    for field in fields {
        if let FieldValue::Delimited(bytes) = field.value {
            if field.number == number {
                last = bytes;
            }
        }
    }
    last
}

/// The number in a field of this number, 0 where there is none.
pub(crate) fn last_number(fields: &[Field], number: u32) -> u64
    ensures { result ≡ number_of number (map field_of fields.now) }
{
    let mut last = 0;
    for field in fields {
        if let FieldValue::Varint(value) = field.value {
            if field.number == number {
                last = value;
            }
        }
    }
    last
}
