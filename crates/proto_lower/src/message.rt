//! Messages and the entries that map fields make (language guide, "Nested Types", "Maps").

ghost use Rattle.std.specs.Prelude.{◌≡◌, ◌∷◌, ◌++◌, [], IfOk, OnOk, map, flat_map};
ghost use Rattle.proto_lower.specs.Fields.{inner};
ghost use Rattle.proto_lower.specs.Messages.{entry_field, entry_fields, entry_of, all_fields, message_of, nested_of, lowered_message};
ghost use Rattle.proto_lower.specs.Oneofs.{real_oneofs, names_of_fields, with_made};
ghost use Rattle.proto_lower.specs.Enums.{lowered_enum};
ghost use Rattle.proto_lower.specs.Reserveds.{message_range};
ghost use Rattle.proto_options.specs.Statements.{message_enum, message_reserved, names_in, ranges_in};
ghost use Rattle.proto_tree.specs.Text.{joined};

use crate::enumeration::put_enum;
use crate::field::{inner_name, put_fields, real_count};
use crate::item_counts::ItemCounts;
use crate::names::entry_name;
use crate::oneof::put_oneofs;
use crate::options::options_of;
use crate::reserved::{message_ranges, put_reserved_names};
use crate::shared_scope::SharedScope;
use crate::type_name::{field_kind, scalar_of_key};
use proto_base::Place;
use proto_base::row::Row;
use proto_base::text::Text;
use proto_desc::enumeration::EnumDesc;
use proto_desc::field::{FieldDesc, FieldKind, FieldLabel};
use proto_desc::identifier::Identifier;
use proto_desc::json_name::JsonName;
use proto_desc::message::{MessageDesc, ReservedRange};
use proto_desc::oneof::OneofDesc;
use proto_desc::rules::Element;
use proto_tree::{MapField, Message, MessageItem, Name};
use std::alloc::{AllocError, Global};

fn entry_field<'s>(
    alloc: Global,
    name: &'static str,
    place: Place,
    number: u64,
    field_type: FieldKind<'s>,
) -> FieldDesc<'s>
    ensures { result ≡ entry_field name.now place number field_type.entry }
{
    FieldDesc {
        name: Identifier::new(name),
        place,
        label: FieldLabel::Optional,
        proto3_optional: false,
        number,
        field_type,
        oneof_index: None,
        json_name: JsonName::same(name),
        options: Row::new(alloc),
    }
}

/// The fields `key` and `value` of the entry of a map field.
fn entry_fields<'s>(alloc: Global, map: &MapField<'s>) -> Result<Row<FieldDesc<'s>>, AllocError>
    ensures { IfOk result (λ fields. fields ≡ entry_fields map.now) }
{
    let place = map.declarator.name.span.start;
    let value = field_kind(alloc, &map.map_type.value)?;
    let key = FieldKind::Scalar(scalar_of_key(map.map_type.key));
    let fields = vec![in alloc;
        entry_field(alloc, "key", place, 1, key),
        entry_field(alloc, "value", place, 2, value),
    ]?;
    Ok(Row::from_vec(fields))
}

/// Adds the entry of a map field.
fn put_entry<'s>(
    alloc: Global,
    out: &mut Vec<MessageDesc<'s>>,
    map: &MapField<'s>,
) -> Result<(), AllocError>
    ensures { OnOk result (out.new.items ≡ out.old.items ++ entry_of map.now ∷ []) }
{
    let field = &map.declarator.name;
    let name = entry_name(alloc, field.text)?;
    out.push(MessageDesc {
        name: Text::owned(name),
        place: field.span.start,
        fields: entry_fields(alloc, map)?,
        nested: Row::new(alloc),
        enums: Row::new(alloc),
        oneofs: Row::new(alloc),
        reserved_ranges: Row::new(alloc),
        reserved_names: Row::new(alloc),
        options: Row::new(alloc),
        is_map_entry: true,
    })?;
    Ok(())
}

/// Adds the enums among these statements.
fn put_enums<'s>(
    alloc: Global,
    out: &mut Vec<EnumDesc<'s>>,
    items: &[MessageItem<'s>],
) -> Result<(), AllocError>
    ensures { OnOk result (out.new.items
        ≡ out.old.items ++ map lowered_enum (flat_map message_enum items.now)) }
{
    for item in items {
        if let MessageItem::Enum(declared) = item {
            put_enum(alloc, out, declared.get())?;
        }
    }
    Ok(())
}

/// What the statements of a message give, but for its nested messages and its options.
#[derive(Drop)]
struct Parts<'s> {
    fields: Vec<FieldDesc<'s>>,
    oneofs: Vec<OneofDesc<'s>>,
    enums: Vec<EnumDesc<'s>>,
    reserved_ranges: Vec<ReservedRange>,
    reserved_names: Vec<Text<'s>>,
}

/// Makes room for as much as this.
fn make_room(out: &mut Parts, counts: ItemCounts) -> Result<(), AllocError>
    ensures fields { OnOk result (out.new.fields.items ≡ out.old.fields.items) }
    ensures oneofs { OnOk result (out.new.oneofs.items ≡ out.old.oneofs.items) }
    ensures enums { OnOk result (out.new.enums.items ≡ out.old.enums.items) }
    ensures names { OnOk result (out.new.reserved_names.items ≡ out.old.reserved_names.items) }
{
    out.fields.reserve_exact(counts.fields)?;
    out.oneofs.reserve_exact(counts.oneofs)?;
    out.enums.reserve_exact(counts.enums)
}

/// Adds what these statements of the message of this name in the scope declare, which is so much, and sets what they reserve.
fn put_parts<'s>(
    alloc: Global,
    out: &mut Parts<'s>,
    scope: &mut SharedScope,
    message: &str,
    items: &[MessageItem<'s>],
    counts: ItemCounts,
) -> Result<(), AllocError>
    ensures same { scope.new ≡ scope.old }
    ensures fields { OnOk result (out.new.fields.items
        ≡ out.old.fields.items ++ all_fields (inner scope.old message.now) items.now) }
    ensures oneofs { OnOk result (out.new.oneofs.items
        ≡ with_made (names_of_fields out.new.fields.items)
        (out.old.oneofs.items ++ real_oneofs items.now) out.new.fields.items) }
    ensures enums { OnOk result (out.new.enums.items
        ≡ out.old.enums.items ++ map lowered_enum (flat_map message_enum items.now)) }
    ensures ranges { OnOk result (out.new.reserved_ranges.items
        ≡ map message_range (flat_map ranges_in (flat_map message_reserved items.now))) }
    ensures names { OnOk result (out.new.reserved_names.items
        ≡ out.old.reserved_names.items
        ++ map joined (flat_map names_in (flat_map message_reserved items.now))) }
{
    make_room(out, counts)?;
    put_fields(
        alloc,
        &mut out.fields,
        scope,
        message,
        items,
        real_count(items),
    )?;
    put_oneofs(alloc, &mut out.oneofs, items, out.fields.as_slice())?;
    put_enums(alloc, &mut out.enums, items)?;
    out.reserved_ranges = message_ranges(alloc, items)?;
    put_reserved_names(alloc, &mut out.reserved_names, items)
}

/// Adds the message of this name in the scope and these statements, which declare so much, with the descriptors of its
/// nested messages.
fn put_message_of<'s>(
    alloc: Global,
    out: &mut Vec<MessageDesc<'s>>,
    scope: &mut SharedScope,
    name: &Name<'s>,
    items: &[MessageItem<'s>],
    counts: ItemCounts,
    nested: Row<MessageDesc<'s>>,
) -> Result<(), AllocError>
    ensures same { scope.new ≡ scope.old }
    ensures put { OnOk result (out.new.items ≡ out.old.items
        ++ message_of (inner scope.old name.now.text) name.now items.now nested.entry ∷ []) }
{
    let options = options_of(alloc, Element::Message, items)?;
    let mut parts = Parts {
        fields: Vec::new(alloc),
        oneofs: Vec::new(alloc),
        enums: Vec::new(alloc),
        reserved_ranges: Vec::new(alloc),
        reserved_names: Vec::new(alloc),
    };
    put_parts(alloc, &mut parts, scope, name.text, items, counts)?;
    out.push(MessageDesc {
        name: Text::borrowed(name.text),
        place: name.span.start,
        fields: Row::from_vec(parts.fields),
        nested,
        enums: Row::from_vec(parts.enums),
        oneofs: Row::from_vec(parts.oneofs),
        reserved_ranges: Row::from_vec(parts.reserved_ranges),
        reserved_names: Row::from_vec(parts.reserved_names),
        options,
        is_map_entry: false,
    })?;
    Ok(())
}

/// Adds the messages that these statements of the message with this full name declare, and the entries of its map fields.
#[cycle(messages)]
fn put_nested<'s>(
    alloc: Global,
    out: &mut Vec<MessageDesc<'s>>,
    full: &str,
    items: &[MessageItem<'s>],
) -> Result<(), AllocError>
    ensures { OnOk result (out.new.items
        ≡ out.old.items ++ flat_map (nested_of full.now) items.now) }
{
    let mut scope = SharedScope::new(full);
    for item in items {
        match item {
            MessageItem::Map(map) => put_entry(alloc, out, map.get())?,
            MessageItem::Message(inner) => put_message(alloc, out, &mut scope, inner.get())?,
            MessageItem::Field(_) => {}
            MessageItem::Oneof(_) => {}
            MessageItem::Option(_) => {}
            MessageItem::Enum(_) => {}
            MessageItem::Reserved(_) => {}
            MessageItem::Empty(_) => {}
        }
    }
    Ok(())
}

/// Adds the descriptor of a message in the scope.
#[cycle(messages)]
pub(crate) fn put_message<'s>(
    alloc: Global,
    out: &mut Vec<MessageDesc<'s>>,
    scope: &mut SharedScope,
    message: &Message<'s>,
) -> Result<(), AllocError>
    ensures same { scope.new ≡ scope.old }
    ensures put { OnOk result (out.new.items
        ≡ out.old.items ++ lowered_message scope.old message.now ∷ []) }
{
    let items = message.items.as_slice();
    let full = inner_name(alloc, scope.full(), message.name.text)?;
    let counts = ItemCounts::of(items);
    let mut nested = Vec::with_capacity(alloc, counts.nested)?;
    put_nested(alloc, &mut nested, full.as_str(), items)?;
    let nested = Row::from_vec(nested);
    put_message_of(alloc, out, scope, &message.name, items, counts, nested)
}
