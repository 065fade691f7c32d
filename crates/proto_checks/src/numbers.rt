//! The rules that the numbers of a message's fields or of an enum's values break, or what is reserved there (language
//! guide, "Assigning Field Numbers", "Reserved Fields", "Enumerations", "Reserved Values").

ghost use Rattle.std.specs.Prelude.{OnOk, flat_map};
ghost use Rattle.proto_options.specs.Options.{enum_setting, first_setting};
ghost use Rattle.proto_desc.specs.Rules.{allow_alias};
ghost use Rattle.proto_options.specs.Statements.{ranges_in};
ghost use Rattle.proto_base.specs.Sets.{Gains};
ghost use Rattle.proto_checks.specs.Numbers.{FirstNotZero, FieldNumbersBreak, EnumNumbersBreak, RangesBreak, ValueTwice, OwnFieldNumbersBreak, OwnValueNumbersBreak, ReservedRangesBreak};

use crate::aliases::is_aliasing;
use crate::bounds::{put_no_field_numbers, put_outside};
use crate::faults::put_fault;
use crate::gathered::{
    FIELD_MAX, Literal, VALUE_MAX, VALUE_MIN, VALUE_ZERO, field_numbers, marked_bounds,
    marked_ranges, value_numbers,
};
use crate::marks::{MarkedNumber, MarkedRange};
use crate::ranges::{put_backwards, put_overlaps, put_reserved_numbers_used};
use crate::repeats::{is_rising, put_numbers_twice, put_unordered_twice};
use crate::reserved_names::put_reserved_twice;
use proto_base::{Kind, Spot};
use proto_options::{Reserves, ranges_listed};
use proto_tree::{EnumItem, MessageItem};
use std::alloc::{AllocError, Global};

fn put_range_faults(
    alloc: Global,
    faults: &mut Vec<Spot>,
    ranges: &[MarkedRange],
    numbers: &[MarkedNumber],
) -> Result<(), AllocError>
    ensures { OnOk result (Gains (RangesBreak ranges.now numbers.now)
        faults.old.items faults.new.items) }
{
    put_reserved_numbers_used(alloc, faults, ranges, numbers)?;
    put_overlaps(alloc, faults, ranges)?;
    put_backwards(faults, ranges)
}

/// Puts the rules that the numbers of a message's fields break among themselves.
fn put_own_field_number_faults(
    alloc: Global,
    faults: &mut Vec<Spot>,
    numbers: &[MarkedNumber],
) -> Result<(), AllocError>
    ensures { OnOk result (Gains (OwnFieldNumbersBreak numbers.now)
        faults.old.items faults.new.items) }
{
    put_no_field_numbers(faults, numbers)?;
    put_numbers_twice(alloc, faults, Kind::FieldNumberTwice, numbers)
}

/// Puts the rules that the ranges which statements reserve break, and the numbers in use with them. The bounds of ranges
/// lie from the least to the greatest number, or are faults of this kind.
fn put_reserved_range_faults<'s, I: Reserves<'s>>(
    alloc: Global,
    faults: &mut Vec<Spot>,
    items: &[I],
    numbers: &[MarkedNumber],
    least: u128,
    greatest: u128,
    kind: Kind,
) -> Result<(), AllocError>
where
    I::Number: Literal,
    ensures { OnOk result (Gains
        (ReservedRangesBreak I.Number.mark least greatest kind
        (flat_map ranges_in (flat_map I.reserved_by items.now)) numbers.now)
        faults.old.items faults.new.items) }
{
    let listed = ranges_listed(alloc, items)?;
    if listed.is_empty() {
        return Ok(());
    }
    let bounds = marked_bounds(alloc, &listed)?;
    put_outside(faults, least, greatest, kind, &bounds)?;
    let ranges = marked_ranges(alloc, &listed, greatest)?;
    put_range_faults(alloc, faults, &ranges, numbers)
}

/// Puts the rules on numbers that the statements of a message break.
pub(crate) fn put_field_number_faults(
    alloc: Global,
    faults: &mut Vec<Spot>,
    items: &[MessageItem],
) -> Result<(), AllocError>
    ensures { OnOk result (Gains (FieldNumbersBreak items.now) faults.old.items faults.new.items) }
{
    let numbers = field_numbers(alloc, items)?;
    put_own_field_number_faults(alloc, faults, &numbers)?;
    let kind = Kind::FieldNumberRange;
    put_reserved_range_faults(alloc, faults, items, &numbers, 1, FIELD_MAX, kind)?;
    put_reserved_twice(alloc, faults, items)
}

/// Puts the first value, where it is not 0.
fn put_first_not_zero(faults: &mut Vec<Spot>, numbers: &[MarkedNumber]) -> Result<(), AllocError>
    ensures { OnOk result (Gains (FirstNotZero numbers.now) faults.old.items faults.new.items) }
{
    match numbers.first() {
        Some(marked) if marked.number != VALUE_ZERO => {
            put_fault(faults, marked.place, Kind::EnumFirstNotZero)
        }
        _ => Ok(()),
    }
}

/// Puts the values whose numbers earlier ones have, unless the enum allows it.
fn put_values_twice(
    alloc: Global,
    faults: &mut Vec<Spot>,
    items: &[EnumItem],
    numbers: &[MarkedNumber],
) -> Result<(), AllocError>
    ensures { OnOk result (Gains
        (ValueTwice (first_setting allow_alias (flat_map enum_setting items.now)) numbers.now)
        faults.old.items faults.new.items) }
{
    if is_rising(numbers) || is_aliasing(items) {
        return Ok(());
    }
    put_unordered_twice(alloc, faults, Kind::EnumNumberTwice, numbers)
}

/// Puts the rules that the numbers of an enum's values break among themselves.
fn put_own_value_number_faults(
    alloc: Global,
    faults: &mut Vec<Spot>,
    items: &[EnumItem],
    numbers: &[MarkedNumber],
) -> Result<(), AllocError>
    ensures { OnOk result (Gains (OwnValueNumbersBreak items.now numbers.now)
        faults.old.items faults.new.items) }
{
    put_first_not_zero(faults, numbers)?;
    put_outside(faults, VALUE_MIN, VALUE_MAX, Kind::EnumNumberRange, numbers)?;
    put_values_twice(alloc, faults, items, numbers)
}

/// Puts the rules on numbers that the statements of an enum break.
pub(crate) fn put_enum_number_faults(
    alloc: Global,
    faults: &mut Vec<Spot>,
    items: &[EnumItem],
) -> Result<(), AllocError>
    ensures { OnOk result (Gains (EnumNumbersBreak items.now) faults.old.items faults.new.items) }
{
    let numbers = value_numbers(alloc, items)?;
    put_own_value_number_faults(alloc, faults, items, &numbers)?;
    let kind = Kind::EnumNumberRange;
    put_reserved_range_faults(alloc, faults, items, &numbers, VALUE_MIN, VALUE_MAX, kind)?;
    put_reserved_twice(alloc, faults, items)
}
