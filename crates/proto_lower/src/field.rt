//! Fields, map fields and members of oneofs (language guide, "Specifying Field Types", "Maps", "Oneof").

ghost use Rattle.std.specs.Prelude.{◌≡◌, ◌∷◌, ◌++◌, ◌≤◌, [], IfOk, OnOk, map, flat_map, length, string_bytes};
ghost use Rattle.proto_options.specs.Statements.{oneof_field};
ghost use Rattle.proto_lower.specs.Fields.{described, label_of, is_optional, field_at, inner, map_described, member_at, real_count, fields_from};

use crate::names::entry_name_in;
use crate::options::{bracketed_options, field_json_name};
use crate::shared_scope::SharedScope;
use crate::type_name::field_kind;
use proto_desc::absolute_name::AbsoluteName;
use proto_desc::field::{FieldDesc, FieldKind, FieldLabel};
use proto_desc::identifier::Identifier;
use proto_desc::narrow;
use proto_desc::rules::Element;
use proto_desc::type_name::{TypeKind, TypeReference};
use proto_tree::{Declarator, Field, Label, MapField, MessageItem, OneofItem};
use std::alloc::{AllocError, Global};

/// The position of a oneof as a descriptor has it.
fn oneof_index(position: Option<usize>) -> Result<Option<u32>, AllocError>
    ensures { IfOk result (λ index. index ≡ position) }
{
    match position {
        Some(position) => Ok(Some(narrow(position)?)),
        None => Ok(None),
    }
}

/// Adds the field of a declarator, which belongs to the oneof at this position, if any.
fn put_described<'s>(
    alloc: Global,
    out: &mut Vec<FieldDesc<'s>>,
    declarator: &Declarator<'s>,
    label: FieldLabel,
    field_type: FieldKind<'s>,
    oneof: Option<usize>,
    proto3_optional: bool,
) -> Result<(), AllocError>
    ensures { OnOk result (out.new.items ≡ out.old.items
        ++ described declarator.now label field_type.entry oneof proto3_optional ∷ []) }
{
    let name = declarator.name.text;
    let options = bracketed_options(alloc, Element::Field, &declarator.options)?;
    let json_name = field_json_name(alloc, name, &declarator.options)?;
    out.push(FieldDesc {
        name: Identifier::new(name),
        place: declarator.name.span.start,
        label,
        proto3_optional,
        oneof_index: oneof_index(oneof)?,
        number: declarator.number.value,
        field_type,
        json_name,
        options,
    })?;
    Ok(())
}

fn label_of(label: &Option<Label>) -> FieldLabel
    ensures { result ≡ label_of label.now }
{
    match label {
        Some(Label::Repeated(_)) => FieldLabel::Repeated,
        _ => FieldLabel::Optional,
    }
}

/// Whether a field with this label is `optional`.
pub(crate) fn is_optional(label: &Option<Label>) -> bool
    ensures { result ≡ is_optional label.now }
{
    matches!(label, Some(Label::Optional(_)))
}

/// Adds a field, which has a oneof of its own at the position `next_made` if it is `optional`.
fn put_field<'s>(
    alloc: Global,
    out: &mut Vec<FieldDesc<'s>>,
    field: &Field<'s>,
    next_made: usize,
) -> Result<(), AllocError>
    ensures { OnOk result (out.new.items ≡ out.old.items ++ field_at next_made field.now ∷ []) }
{
    let is_optional = is_optional(&field.label);
    let oneof = if is_optional { Some(next_made) } else { None };
    let field_type = field_kind(alloc, &field.field_type)?;
    let label = label_of(&field.label);
    put_described(
        alloc,
        out,
        &field.declarator,
        label,
        field_type,
        oneof,
        is_optional,
    )
}

/// The full name, behind a leading dot, of what stands in the scope.
pub(crate) fn inner_name(alloc: Global, scope: &str, name: &str) -> Result<String, AllocError>
    ensures { IfOk result (λ full. string_bytes full ≡ inner scope.now name.now) }
{
    let room = scope.len().saturating_add(name.len()).saturating_add(1);
    let mut full = String::with_capacity(alloc, room)?;
    full.push_str(scope)?;
    full.push_str(".")?;
    full.push_str(name)?;
    Ok(full)
}

/// Adds a map field of the message of this name in the scope: a repeated field of its entry's type.
fn put_map<'s>(
    alloc: Global,
    out: &mut Vec<FieldDesc<'s>>,
    scope: &mut SharedScope,
    message: &str,
    map: &MapField<'s>,
) -> Result<(), AllocError>
    ensures same { scope.new ≡ scope.old }
    ensures put { OnOk result (out.new.items
        ≡ out.old.items ++ map_described (inner scope.old message.now) map.now ∷ []) }
{
    let entry = entry_name_in(alloc, message, map.declarator.name.text)?;
    let full_name = AbsoluteName::new(scope.shared(alloc)?, entry);
    let kind = TypeKind::Message;
    let field_type = FieldKind::Named(TypeReference::Resolved { full_name, kind });
    put_described(
        alloc,
        out,
        &map.declarator,
        FieldLabel::Repeated,
        field_type,
        None,
        false,
    )
}

/// Adds the members of the oneof at the position `number`.
fn put_members<'s>(
    alloc: Global,
    out: &mut Vec<FieldDesc<'s>>,
    items: &[OneofItem<'s>],
    number: usize,
) -> Result<(), AllocError>
    ensures { OnOk result (out.new.items
        ≡ out.old.items ++ map (member_at number) (flat_map oneof_field items.now)) }
{
    for item in items {
        if let OneofItem::Field(field) = item {
            let field = field.get();
            let field_type = field_kind(alloc, &field.field_type)?;
            put_described(
                alloc,
                out,
                &field.declarator,
                FieldLabel::Optional,
                field_type,
                Some(number),
                false,
            )?;
        }
    }
    Ok(())
}

/// How many oneofs of the source there are.
pub(crate) fn real_count(items: &[MessageItem]) -> usize
    ensures value { result ≡ real_count items.now }
    ensures most { result ≤ length items.now }
{
    let mut count = 0;
    for item in items {
        if matches!(item, MessageItem::Oneof(_)) {
            count += 1;
        }
    }
    count
}

/// Adds the fields of the message of this name in the scope with these statements, of which `real` are oneofs.
pub(crate) fn put_fields<'s>(
    alloc: Global,
    out: &mut Vec<FieldDesc<'s>>,
    scope: &mut SharedScope,
    message: &str,
    items: &[MessageItem<'s>],
    real: usize,
) -> Result<(), AllocError>
    requires { real ≤ length items.now }
    ensures same { scope.new ≡ scope.old }
    ensures put { OnOk result (out.new.items
        ≡ out.old.items ++ fields_from (inner scope.old message.now) 0 real items.now) }
{
    let mut next_real = 0;
    let mut next_made = real;
    for item in items {
        match item {
            MessageItem::Field(field) => {
                let field = field.get();
                put_field(alloc, out, field, next_made)?;
                if is_optional(&field.label) {
                    next_made += 1;
                }
            }
            MessageItem::Map(map) => put_map(alloc, out, scope, message, map.get())?,
            MessageItem::Oneof(oneof) => {
                put_members(alloc, out, oneof.get().items.as_slice(), next_real)?;
                next_real += 1;
            }
            _ => {}
        }
    }
    Ok(())
}
