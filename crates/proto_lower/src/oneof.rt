//! Oneofs: those of the source, and then those that `optional` fields make (`descriptor.proto`, `proto3_optional`).

ghost use Rattle.std.specs.Prelude.{◌≡◌, [], ◌∷◌, ◌++◌, ℕ, List, IfOk, OnOk, length};
ghost use Rattle.std.specs.List.{list_any};
ghost use Rattle.proto_lower.specs.Taken.{HoldsTaken};
ghost use Rattle.proto_lower.specs.Oneofs.{real_named, real_oneofs, names_of_fields, names_of_oneofs, made_named, with_made};

use crate::names::{first_free, take_name, with_underscore};
use proto_base::text::Text;
use proto_desc::field::FieldDesc;
use proto_desc::oneof::OneofDesc;
use proto_tree::{MessageItem, Name};
use std::alloc::{AllocError, Global};
use std::collections::BTreeSet;

fn real<'s>(name: &Name<'s>) -> OneofDesc<'s>
    ensures { result ≡ real_named name.now }
{
    OneofDesc {
        name: Text::borrowed(name.text),
        place: name.span.start,
    }
}

/// Adds the oneofs of the source.
fn put_real<'s>(out: &mut Vec<OneofDesc<'s>>, items: &[MessageItem<'s>]) -> Result<(), AllocError>
    ensures { OnOk result (out.new.items ≡ out.old.items ++ real_oneofs items.now) }
{
    for item in items {
        if let MessageItem::Oneof(oneof) = item {
            out.push(real(&oneof.get().name))?;
        }
    }
    Ok(())
}

/// The names that no oneof that is made may have at first.
fn taken_names(
    alloc: Global,
    fields: &[FieldDesc],
    oneofs: &[OneofDesc],
) -> Result<BTreeSet<String>, AllocError>
    ensures { IfOk result (HoldsTaken (names_of_fields fields.now ++ names_of_oneofs oneofs.now)) }
{
    let mut taken = BTreeSet::new(alloc);
    for field in fields {
        take_name(alloc, &mut taken, field.name.as_str())?;
    }
    for oneof in oneofs {
        take_name(alloc, &mut taken, oneof.name.as_str())?;
    }
    Ok(taken)
}

/// The oneof of an `optional` field, where `most` names are taken.
fn made<'s>(
    alloc: Global,
    field: &FieldDesc<'s>,
    taken: &BTreeSet<String>,
    most: usize,
) -> Result<OneofDesc<'s>, AllocError>
    ensures { IfOk result (λ oneof. (names : List (List ℕ)) → HoldsTaken names taken.now
        → most ≡ length names → oneof ≡ made_named names field.now) }
{
    let start = with_underscore(alloc, field.name.as_str())?;
    Ok(OneofDesc {
        name: Text::owned(first_free(alloc, start, taken, most)?),
        place: field.place,
    })
}

fn has_optional(fields: &[FieldDesc]) -> bool
    ensures { result ≡ list_any (λ f. f.proto3_optional) fields.now }
{
    fields.iter().any(|field| field.proto3_optional)
}

/// Adds the oneof of an `optional` field, where `most` names are taken, and takes its name.
fn put_one<'s>(
    alloc: Global,
    oneofs: &mut Vec<OneofDesc<'s>>,
    taken: &mut BTreeSet<String>,
    field: &FieldDesc<'s>,
    most: usize,
) -> Result<(), AllocError>
    ensures oneof { OnOk result ((names : List (List ℕ)) → HoldsTaken names taken.old
        → most ≡ length names
        → oneofs.new.items ≡ oneofs.old.items ++ made_named names field.now ∷ []) }
    ensures name { OnOk result ((names : List (List ℕ)) → HoldsTaken names taken.old
        → most ≡ length names
        → HoldsTaken (names ++ (made_named names field.now).name ∷ []) taken.new) }
{
    let oneof = made(alloc, field, taken, most)?;
    take_name(alloc, taken, oneof.name.as_str())?;
    oneofs.push(oneof)?;
    Ok(())
}

/// Adds the oneofs that fields make. Only where a field makes one does it gather the names.
fn put_made<'s>(
    alloc: Global,
    oneofs: &mut Vec<OneofDesc<'s>>,
    fields: &[FieldDesc<'s>],
) -> Result<(), AllocError>
    ensures { OnOk result (oneofs.new.items
        ≡ with_made (names_of_fields fields.now) oneofs.old.items fields.now) }
{
    if !has_optional(fields) {
        return Ok(());
    }
    let mut taken = taken_names(alloc, fields, oneofs.as_slice())?;
    for field in fields {
        if field.proto3_optional {
            let most = fields.len() + oneofs.len();
            put_one(alloc, oneofs, &mut taken, field, most)?;
        }
    }
    Ok(())
}

/// Adds the oneofs of a message with these fields: those of the source, and behind them those that its fields make.
pub(crate) fn put_oneofs<'s>(
    alloc: Global,
    out: &mut Vec<OneofDesc<'s>>,
    items: &[MessageItem<'s>],
    fields: &[FieldDesc<'s>],
) -> Result<(), AllocError>
    ensures { OnOk result (out.new.items ≡ with_made (names_of_fields fields.now)
        (out.old.items ++ real_oneofs items.now) fields.now) }
{
    put_real(out, items)?;
    put_made(alloc, out, fields)
}
