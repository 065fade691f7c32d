//! Rules on the statements of a message, and of the messages within it.

ghost use Rattle.std.specs.Prelude.{OnOk};
ghost use Rattle.proto_tree.specs.declared.message.MessageItem as message_item;
ghost use Rattle.proto_options.specs.Statements.{oneof_field};
ghost use Rattle.proto_checks.specs.Elements.{MessageBreaks, BodyBreaks};
ghost use Rattle.proto_checks.specs.Parts.{MemberBreaks, ItemBreaks};
ghost use Rattle.proto_checks.specs.Options.{optioned_plain, FieldOptionsBreak};
ghost use Rattle.proto_base.specs.Sets.{Each, Gains};

use crate::each::{Check, put_each};
use crate::enumeration::put_enum_faults;
use crate::field_options::{is_packed_type, is_repeated, is_wide, put_field_option_faults};
use crate::numbers::put_field_number_faults;
use crate::oneof::put_oneof_faults;
use crate::settings::put_statement_setting_faults;
use proto_base::Spot;
use proto_desc::rules::Element;
use proto_tree::{Field, Message, MessageItem, Oneof, OneofField, OneofItem};
use std::alloc::{AllocError, Global};

fn put_field_faults(alloc: Global, faults: &mut Vec<Spot>, field: &Field) -> Result<(), AllocError>
    ensures { OnOk result (Gains (FieldOptionsBreak (optioned_plain field.now))
        faults.old.items faults.new.items) }
{
    let can_be_packed = is_repeated(&field.label) && is_packed_type(&field.field_type);
    let is_wide_integer = is_wide(&field.field_type);
    put_field_option_faults(
        alloc,
        faults,
        &field.declarator,
        can_be_packed,
        is_wide_integer,
    )
}

fn put_member_faults(
    alloc: Global,
    faults: &mut Vec<Spot>,
    field: &OneofField,
) -> Result<(), AllocError>
    ensures { OnOk result (Gains (MemberBreaks field.now) faults.old.items faults.new.items) }
{
    let is_wide_integer = is_wide(&field.field_type);
    put_field_option_faults(alloc, faults, &field.declarator, false, is_wide_integer)
}

impl Check for OneofItem<'_> {
    ghost breaks = { λ item. Each (oneof_field item) MemberBreaks };

    fn put_faults(&self, alloc: Global, faults: &mut Vec<Spot>) -> Result<(), AllocError> {
        match self {
            OneofItem::Field(field) => put_member_faults(alloc, faults, field.get()),
            OneofItem::Option(_) | OneofItem::Empty(_) => Ok(()),
        }
    }
}

/// Puts the faults of a oneof and of its members.
fn put_oneof_item_faults(
    alloc: Global,
    faults: &mut Vec<Spot>,
    oneof: &Oneof,
) -> Result<(), AllocError>
    ensures { OnOk result (Gains (ItemBreaks (message_item.Oneof oneof.now))
        faults.old.items faults.new.items) }
{
    put_each(alloc, faults, oneof.items.as_slice())?;
    put_oneof_faults(alloc, faults, oneof)
}

impl Check for MessageItem<'_> {
    ghost breaks = { ItemBreaks };

    fn put_faults(&self, alloc: Global, faults: &mut Vec<Spot>) -> Result<(), AllocError> {
        match self {
            MessageItem::Field(field) => put_field_faults(alloc, faults, field.get()),
            MessageItem::Map(map) => {
                put_field_option_faults(alloc, faults, &map.get().declarator, false, false)
            }
            MessageItem::Oneof(oneof) => put_oneof_item_faults(alloc, faults, oneof.get()),
            MessageItem::Enum(declared) => put_enum_faults(alloc, faults, declared.get()),
            MessageItem::Message(_)
            | MessageItem::Option(_)
            | MessageItem::Reserved(_)
            | MessageItem::Empty(_) => Ok(()),
        }
    }
}

/// Puts the faults of the statements of a message, without those of the messages within it.
fn put_body_faults(
    alloc: Global,
    faults: &mut Vec<Spot>,
    items: &[MessageItem],
) -> Result<(), AllocError>
    ensures { OnOk result (Gains (BodyBreaks items.now) faults.old.items faults.new.items) }
{
    put_field_number_faults(alloc, faults, items)?;
    put_statement_setting_faults(alloc, faults, Element::Message, items)?;
    put_each(alloc, faults, items)
}

/// Puts the faults of the statements of a message and of the messages within it.
pub(crate) fn put_message_faults(
    alloc: Global,
    faults: &mut Vec<Spot>,
    message: &Message,
) -> Result<(), AllocError>
    ensures { OnOk result (Gains (MessageBreaks message.now) faults.old.items faults.new.items) }
{
    let items = message.items.as_slice();
    put_body_faults(alloc, faults, items)?;
    for item in items {
        match item {
            MessageItem::Message(nested) => put_message_faults(alloc, faults, nested.get())?,
            MessageItem::Field(_) => {}
            MessageItem::Map(_) => {}
            MessageItem::Oneof(_) => {}
            MessageItem::Option(_) => {}
            MessageItem::Enum(_) => {}
            MessageItem::Reserved(_) => {}
            MessageItem::Empty(_) => {}
        }
    }
    Ok(())
}
