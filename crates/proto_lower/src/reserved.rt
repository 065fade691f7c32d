//! Reserved numbers and names (language guide, "Reserved Fields", "Reserved Values").

ghost use Rattle.std.specs.Prelude.{◌≡◌, ◌∷◌, ◌++◌, [], IfOk, OnOk, map, flat_map};
ghost use Rattle.proto_tree.specs.Text.{joined};
ghost use Rattle.proto_lower.specs.Reserveds.{message_range, enum_range, number_of_literal};
ghost use Rattle.proto_options.specs.Statements.{message_reserved, enum_reserved, ranges_in, names_in};

use proto_base::text::Text;
use proto_desc::enumeration::EnumReservedRange;
use proto_desc::message::ReservedRange;
use proto_desc::whole_number::WholeNumber;
use proto_options::{FIELD_MAX, Reserves, VALUE_MAX, names_listed, ranges_listed};
use proto_tree::text::joined;
use proto_tree::{EnumItem, MessageItem, NumberLiteral, Range, SignedNumber, StringValue};
use std::alloc::{AllocError, Global};

fn message_range(range: &Range<NumberLiteral>) -> ReservedRange
    ensures { result ≡ message_range range.now }
{
    let start = range.start.value;
    let end = match range.last() {
        Some(number) => number.value,
        None => FIELD_MAX,
    };
    ReservedRange { start, end }
}

/// The number that a literal spells.
pub(crate) fn number_of_literal(number: SignedNumber) -> WholeNumber
    ensures { result ≡ number_of_literal number }
{
    WholeNumber::signed(number.minus.is_some(), number.number.value)
}

fn enum_range(range: &Range<SignedNumber>) -> EnumReservedRange
    ensures { result ≡ enum_range range.now }
{
    let start = number_of_literal(range.start);
    let end = match range.last() {
        Some(number) => number_of_literal(number),
        None => WholeNumber::signed(false, VALUE_MAX),
    };
    EnumReservedRange { start, end }
}

/// The ranges that the statements of a message reserve.
pub(crate) fn message_ranges(
    alloc: Global,
    items: &[MessageItem],
) -> Result<Vec<ReservedRange>, AllocError>
    ensures { IfOk result (λ ranges. ranges.items
        ≡ map message_range (flat_map ranges_in (flat_map message_reserved items.now))) }
{
    ranges_listed(alloc, items)?
        .iter()
        .map(message_range)
        .collect(alloc)
}

/// The ranges that the statements of an enum reserve.
pub(crate) fn enum_ranges(
    alloc: Global,
    items: &[EnumItem],
) -> Result<Vec<EnumReservedRange>, AllocError>
    ensures { IfOk result (λ ranges. ranges.items
        ≡ map enum_range (flat_map ranges_in (flat_map enum_reserved items.now))) }
{
    let listed = ranges_listed(alloc, items)?;
    let mut ranges = Vec::with_capacity(alloc, listed.len())?;
    for range in &listed {
        ranges.push(enum_range(range))?;
    }
    Ok(ranges)
}

/// Adds a name that is reserved.
fn put_reserved<'s>(
    alloc: Global,
    names: &mut Vec<Text<'s>>,
    name: &StringValue<'s>,
) -> Result<(), AllocError>
    ensures { OnOk result (names.new.items ≡ names.old.items ++ joined name.now ∷ []) }
{
    names.push(joined(alloc, name)?)?;
    Ok(())
}

/// Adds the names that statements reserve.
pub(crate) fn put_reserved_names<'s, I: Reserves<'s>>(
    alloc: Global,
    out: &mut Vec<Text<'s>>,
    items: &[I],
) -> Result<(), AllocError>
    ensures { OnOk result (out.new.items ≡ out.old.items
        ++ map joined (flat_map names_in (flat_map I.reserved_by items.now))) }
{
    let listed = names_listed(alloc, items)?;
    out.reserve_exact(listed.len())?;
    for name in listed {
        put_reserved(alloc, out, name)?;
    }
    Ok(())
}
