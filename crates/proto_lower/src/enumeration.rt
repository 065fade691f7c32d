//! Enums (language guide, "Enumerations").

ghost use Rattle.std.specs.Prelude.{◌≡◌, ◌∷◌, ◌++◌, [], OnOk, map, flat_map};
ghost use Rattle.proto_options.specs.Statements.{enum_reserved, enum_value, names_in, ranges_in};
ghost use Rattle.proto_tree.specs.Text.{joined};
ghost use Rattle.proto_lower.specs.Enums.{value_desc, lowered_enum};
ghost use Rattle.proto_lower.specs.Reserveds.{enum_range};

use crate::options::{bracketed_options, options_of};
use crate::reserved::{enum_ranges, number_of_literal, put_reserved_names};
use proto_base::row::Row;
use proto_base::text::Text;
use proto_desc::enumeration::{EnumDesc, EnumReservedRange, ValueDesc};
use proto_desc::identifier::Identifier;
use proto_desc::rules::Element;
use proto_tree::{Enum, EnumItem, EnumValue};
use std::alloc::{AllocError, Global};

/// Adds a value.
fn put_value<'s>(
    alloc: Global,
    out: &mut Vec<ValueDesc<'s>>,
    value: &EnumValue<'s>,
) -> Result<(), AllocError>
    ensures { OnOk result (out.new.items ≡ out.old.items ++ value_desc value.now ∷ []) }
{
    out.push(ValueDesc {
        name: Identifier::new(value.name.text),
        place: value.name.span.start,
        number: number_of_literal(value.number),
        options: bracketed_options(alloc, Element::EnumValue, &value.options)?,
    })?;
    Ok(())
}

/// Adds the values of an enum.
fn put_values<'s>(
    alloc: Global,
    out: &mut Vec<ValueDesc<'s>>,
    items: &[EnumItem<'s>],
) -> Result<(), AllocError>
    ensures { OnOk result (out.new.items
        ≡ out.old.items ++ map value_desc (flat_map enum_value items.now)) }
{
    for item in items {
        if let EnumItem::Value(value) = item {
            put_value(alloc, out, value.get())?;
        }
    }
    Ok(())
}

fn value_count(items: &[EnumItem]) -> usize {
    let mut count = 0usize;
    for item in items {
        if matches!(item, EnumItem::Value(_)) {
            count = count.saturating_add(1);
        }
    }
    count
}

/// What the statements of an enum give, but for its options.
#[derive(Drop)]
struct Parts<'s> {
    values: Vec<ValueDesc<'s>>,
    reserved_ranges: Vec<EnumReservedRange>,
    reserved_names: Vec<Text<'s>>,
}

/// Adds the values of these statements, and sets what they reserve.
fn put_parts<'s>(
    alloc: Global,
    out: &mut Parts<'s>,
    items: &[EnumItem<'s>],
) -> Result<(), AllocError>
    ensures values { OnOk result (out.new.values.items
        ≡ out.old.values.items ++ map value_desc (flat_map enum_value items.now)) }
    ensures ranges { OnOk result (out.new.reserved_ranges.items
        ≡ map enum_range (flat_map ranges_in (flat_map enum_reserved items.now))) }
    ensures names { OnOk result (out.new.reserved_names.items
        ≡ out.old.reserved_names.items
        ++ map joined (flat_map names_in (flat_map enum_reserved items.now))) }
{
    out.values.reserve_exact(value_count(items))?;
    put_values(alloc, &mut out.values, items)?;
    out.reserved_ranges = enum_ranges(alloc, items)?;
    put_reserved_names(alloc, &mut out.reserved_names, items)
}

/// Adds the descriptor of an enum.
pub(crate) fn put_enum<'s>(
    alloc: Global,
    out: &mut Vec<EnumDesc<'s>>,
    declared: &Enum<'s>,
) -> Result<(), AllocError>
    ensures { OnOk result (out.new.items ≡ out.old.items ++ lowered_enum declared.now ∷ []) }
{
    let items = declared.items.as_slice();
    let options = options_of(alloc, Element::Enum, items)?;
    let mut parts = Parts {
        values: Vec::new(alloc),
        reserved_ranges: Vec::new(alloc),
        reserved_names: Vec::new(alloc),
    };
    put_parts(alloc, &mut parts, items)?;
    out.push(EnumDesc {
        name: Text::borrowed(declared.name.text),
        place: declared.name.span.start,
        values: Row::from_vec(parts.values),
        options,
        reserved_ranges: Row::from_vec(parts.reserved_ranges),
        reserved_names: Row::from_vec(parts.reserved_names),
    })?;
    Ok(())
}
