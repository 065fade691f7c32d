//! Rules on the names of fields and of enum values: that JSON names differ, and that no reserved name is in use (language
//! guide, "JSON Mapping", "Reserved Fields").

ghost use Rattle.std.specs.Prelude.{◌≡◌, IfOk, OnOk, map};
ghost use Rattle.proto_base.specs.declared.kind.Kind.TheVariants.{JsonNameTwice};
ghost use Rattle.proto_checks.specs.Marks.{TextTwice};
ghost use Rattle.proto_checks.specs.Checks.{json_mark, EnumNamesBreak, MessageNamesBreak, names_of};
ghost use Rattle.proto_base.specs.Sets.{Each, Gains};

use crate::each::{Check, put_each};
use crate::marks::PlacedText;
use crate::repeats::put_texts_twice;
use crate::reserved_names::put_reserved_names_used;
use proto_base::text::Text;
use proto_base::{Kind, Spot};
use proto_desc::enumeration::EnumDesc;
use proto_desc::field::FieldDesc;
use proto_desc::message::MessageDesc;
use std::alloc::{AllocError, Global};

/// The JSON names of fields, each at its field.
fn json_names<'f>(alloc: Global, fields: &'f [FieldDesc]) -> Result<Vec<PlacedText<'f>>, AllocError>
    ensures { IfOk result (λ names. names.items ≡ map json_mark fields.now) }
{
    let mut names = Vec::with_capacity(alloc, fields.len())?;
    for field in fields {
        names.push(PlacedText {
            text: field.json_name.text(alloc)?,
            place: field.place,
        })?;
    }
    Ok(names)
}

/// Puts the fields that have the JSON name of an earlier one.
fn put_json_names_twice(
    alloc: Global,
    faults: &mut Vec<Spot>,
    fields: &[FieldDesc],
) -> Result<(), AllocError>
    ensures { OnOk result (Gains (TextTwice JsonNameTwice (map json_mark fields.now))
        faults.old.items faults.new.items) }
{
    let names = json_names(alloc, fields)?;
    put_texts_twice(alloc, faults, Kind::JsonNameTwice, &names)
}

/// Values whose names the enum reserves.
impl Check for EnumDesc<'_> {
    ghost breaks = { EnumNamesBreak };

    fn put_faults(&self, alloc: Global, faults: &mut Vec<Spot>) -> Result<(), AllocError> {
        put_reserved_names_used(
            alloc,
            faults,
            self.reserved_names.as_slice(),
            self.values.as_slice(),
        )
    }
}

/// Puts the faults of the names of a message, without those of the messages within it.
fn put_own_name_faults(
    alloc: Global,
    faults: &mut Vec<Spot>,
    fields: &[FieldDesc],
    reserved: &[Text],
    enums: &[EnumDesc],
) -> Result<(), AllocError>
    ensures { OnOk result (Gains
        (MessageNamesBreak (record {
          fields = fields.now;
          reserved_names = reserved.now;
          enums = enums.now;
        })) faults.old.items faults.new.items) }
{
    put_json_names_twice(alloc, faults, fields)?;
    put_reserved_names_used(alloc, faults, reserved, fields)?;
    put_each(alloc, faults, enums)
}

/// Puts the faults of the names of a message and of the messages within it.
fn put_message_name_faults(
    alloc: Global,
    faults: &mut Vec<Spot>,
    message: &MessageDesc,
) -> Result<(), AllocError>
    ensures { OnOk result (Gains (Each (names_of message.now) MessageNamesBreak)
        faults.old.items faults.new.items) }
{
    let fields = message.fields.as_slice();
    let reserved = message.reserved_names.as_slice();
    put_own_name_faults(alloc, faults, fields, reserved, message.enums.as_slice())?;
    for nested in message.nested.as_slice() {
        put_message_name_faults(alloc, faults, nested)?;
    }
    Ok(())
}

impl Check for MessageDesc<'_> {
    ghost breaks = { λ message. Each (names_of message) MessageNamesBreak };

    fn put_faults(&self, alloc: Global, faults: &mut Vec<Spot>) -> Result<(), AllocError> {
        put_message_name_faults(alloc, faults, self)
    }
}
