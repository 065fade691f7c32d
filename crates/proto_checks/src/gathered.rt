//! The numbers of a message's fields and of an enum's values, and what is reserved there, each with its place.

ghost use Rattle.std.specs.Prelude.{◌≡◌, ◌++◌, IfOk, OnOk, map, flat_map};
ghost use Rattle.proto_options.specs.Statements.{oneof_field};
ghost use Rattle.proto_checks.specs.Gathered.{literal, signed_number, field_number, field_numbers, value_numbers, marked_range, bounds_of};
ghost use Rattle.proto_checks.specs.Options.{optioned_in_oneof};

use crate::marks::{MarkedNumber, MarkedRange};
use proto_tree::{EnumItem, MessageItem, NumberLiteral, OneofItem, Range, SignedNumber};
use std::alloc::{AllocError, Global};

/// The greatest number of a field, which `max` stands for in a message.
pub const FIELD_MAX: u128 = proto_options::FIELD_MAX as u128;

/// The number of an enum's value that is 0, as `MarkedNumber` counts it.
pub(crate) const VALUE_ZERO: u128 = 1 << 64;

/// The least number of an enum's value.
pub(crate) const VALUE_MIN: u128 = VALUE_ZERO - 2_147_483_648;

/// The greatest number of an enum's value, which `max` stands for in an enum.
pub const VALUE_MAX: u128 = VALUE_ZERO + proto_options::VALUE_MAX as u128;

/// A number of a field or of an enum's value, as it is spelled.
pub trait Literal: Copy {
    ghost use Rattle.std.specs.Prelude.{◌≡◌};
    ghost use Rattle.proto_checks.specs.declared.marks.MarkedNumber.{MarkedNumber};

    /// The number, with its place.
    ghost mark: { Self → MarkedNumber };

    /// The number, with its place.
    fn marked(self) -> MarkedNumber
        ensures { result ≡ mark self };
}

impl Literal for NumberLiteral {
    ghost mark = { literal };

    fn marked(self) -> MarkedNumber {
        MarkedNumber {
            number: self.value as u128,
            place: self.span.start,
        }
    }
}

/// A number of an enum is counted from -2^64 on. Its place is that of its minus, if it has one.
impl Literal for SignedNumber {
    ghost mark = { signed_number };

    fn marked(self) -> MarkedNumber {
        let value = self.number.value as u128;
        match self.minus {
            None => MarkedNumber {
                number: VALUE_ZERO + value,
                place: self.number.span.start,
            },
            Some(minus) => MarkedNumber {
                number: VALUE_ZERO - value,
                place: minus.start,
            },
        }
    }
}

fn put_members(numbers: &mut Vec<MarkedNumber>, items: &[OneofItem]) -> Result<(), AllocError>
    ensures { OnOk result (numbers.new.items ≡ numbers.old.items
        ++ map field_number (map optioned_in_oneof (flat_map oneof_field items.now))) }
{
    for item in items {
        if let OneofItem::Field(field) = item {
            numbers.push(field.get().declarator.number.marked())?;
        }
    }
    Ok(())
}

/// The numbers of a message's fields, map fields and members of oneofs among them.
pub fn field_numbers(alloc: Global, items: &[MessageItem]) -> Result<Vec<MarkedNumber>, AllocError>
    ensures { IfOk result (λ numbers. numbers.items ≡ field_numbers items.now) }
{
    let mut numbers = Vec::with_capacity(alloc, items.len())?;
    for item in items {
        match item {
            MessageItem::Field(field) => numbers.push(field.get().declarator.number.marked())?,
            MessageItem::Map(map) => numbers.push(map.get().declarator.number.marked())?,
            MessageItem::Oneof(oneof) => put_members(&mut numbers, oneof.get().items.as_slice())?,
            _ => {}
        }
    }
    Ok(numbers)
}

/// The numbers of a range, in which `max` stands for the greatest number.
fn marked_range<N: Literal>(range: &Range<N>, greatest: u128) -> MarkedRange
    ensures { result ≡ marked_range N.mark greatest range.now }
{
    let start = range.start.marked();
    let end = match range.last() {
        Some(number) => number.marked().number,
        None => greatest,
    };
    MarkedRange {
        start: start.number,
        end,
        place: start.place,
    }
}

/// The numbers of ranges, in which `max` stands for the greatest number.
pub fn marked_ranges<N: Literal>(
    alloc: Global,
    listed: &[Range<N>],
    greatest: u128,
) -> Result<Vec<MarkedRange>, AllocError>
    ensures { IfOk result (λ ranges. ranges.items ≡ map (marked_range N.mark greatest) listed.now) }
{
    listed
        .iter()
        .map(|range| marked_range(range, greatest))
        .collect(alloc)
}

/// The bounds of ranges, without `max`.
fn bounds_of<N: Copy>(alloc: Global, listed: &[Range<N>]) -> Result<Vec<N>, AllocError>
    ensures { IfOk result (λ bounds. bounds.items ≡ flat_map bounds_of listed.now) }
{
    let mut bounds = Vec::new(alloc);
    for range in listed {
        bounds.push(range.start)?;
        if let Some(end) = &range.end {
            if let Some(number) = end.bound.number() {
                bounds.push(number)?;
            }
        }
    }
    Ok(bounds)
}

/// The numbers of these bounds.
pub(crate) fn marked_bounds<N: Literal>(
    alloc: Global,
    listed: &[Range<N>],
) -> Result<Vec<MarkedNumber>, AllocError>
    ensures { IfOk result (λ bounds. bounds.items ≡ map N.mark (flat_map bounds_of listed.now)) }
{
    bounds_of(alloc, listed)?
        .iter()
        .map(|number| number.marked())
        .collect(alloc)
}

/// The numbers of an enum's values.
pub fn value_numbers(alloc: Global, items: &[EnumItem]) -> Result<Vec<MarkedNumber>, AllocError>
    ensures { IfOk result (λ numbers. numbers.items ≡ value_numbers items.now) }
{
    let mut numbers = Vec::with_capacity(alloc, items.len())?;
    for item in items {
        if let EnumItem::Value(value) = item {
            numbers.push(value.get().number.marked())?;
        }
    }
    Ok(numbers)
}
