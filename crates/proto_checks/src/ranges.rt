//! Ranges of reserved numbers: that none is backwards, that none share a number, and that no number in use is in one.

ghost use Rattle.std.specs.Prelude.{◌↔◌, IfSome, IsTrue, OnOk};
ghost use Rattle.proto_checks.specs.Covers.{IsAcross, IsCover, IsUsed};
ghost use Rattle.proto_checks.specs.Marks.{ReservedBackwards, ReservedNumberUsed, ReservedOverlap};
ghost use Rattle.proto_base.specs.Sets.{Each, Gains};

use crate::covers::{Interval, cover_of, is_reached};
use crate::faults::put_fault;
use crate::marks::{MarkedNumber, MarkedRange};
use crate::repeats::FEW;
use proto_base::{Kind, Spot};
use std::alloc::{AllocError, Global};

/// Puts the ranges whose ends are below their starts.
pub(crate) fn put_backwards(
    faults: &mut Vec<Spot>,
    ranges: &[MarkedRange],
) -> Result<(), AllocError>
    ensures { OnOk result (Gains (ReservedBackwards ranges.now) faults.old.items faults.new.items) }
{
    for range in ranges {
        if range.end < range.start {
            put_fault(faults, range.place, Kind::ReservedBackwards)?;
        }
    }
    Ok(())
}

/// Whether one of the ranges holds a number: asks their cover, if there is one.
fn is_held(ranges: &[MarkedRange], cover: &Option<Vec<Interval>>, number: u128) -> bool
    requires { IfSome cover.now (λ intervals. IsCover ranges.now intervals.items) }
    ensures { IsTrue result ↔ IsUsed ranges.now number }
{
    match cover {
        Some(cover) => is_reached(cover, number, number),
        None => ranges
            .iter()
            .any(|range| range.start <= number && number <= range.end),
    }
}

/// Puts the numbers that one of the ranges holds: asks their cover, if there is one.
fn put_held_numbers(
    faults: &mut Vec<Spot>,
    ranges: &[MarkedRange],
    cover: &Option<Vec<Interval>>,
    numbers: &[MarkedNumber],
) -> Result<(), AllocError>
    requires { IfSome cover.now (λ intervals. IsCover ranges.now intervals.items) }
    ensures { OnOk result (Gains (ReservedNumberUsed ranges.now numbers.now)
        faults.old.items faults.new.items) }
{
    for marked in numbers {
        if is_held(ranges, cover, marked.number) {
            put_fault(faults, marked.place, Kind::ReservedNumberUsed)?;
        }
    }
    Ok(())
}

/// Puts the numbers that one of the ranges holds.
pub(crate) fn put_reserved_numbers_used(
    alloc: Global,
    faults: &mut Vec<Spot>,
    ranges: &[MarkedRange],
    numbers: &[MarkedNumber],
) -> Result<(), AllocError>
    ensures { OnOk result (Gains (ReservedNumberUsed ranges.now numbers.now)
        faults.old.items faults.new.items) }
{
    if ranges.is_empty() {
        return Ok(());
    }
    let cover = if ranges.len() > FEW {
        Some(cover_of(alloc, ranges)?)
    } else {
        None
    };
    put_held_numbers(faults, ranges, &cover, numbers)
}

/// Puts the later ranges that share numbers with early ones.
fn put_across(
    alloc: Global,
    faults: &mut Vec<Spot>,
    early: &[MarkedRange],
    late: &[MarkedRange],
) -> Result<(), AllocError>
    ensures { OnOk result (Gains (Each late.now (IsAcross early.now))
        faults.old.items faults.new.items) }
{
    let cover = cover_of(alloc, early)?;
    for range in late {
        if range.start <= range.end && is_reached(&cover, range.start, range.end) {
            put_fault(faults, range.place, Kind::ReservedOverlap)?;
        }
    }
    Ok(())
}

/// Puts the ranges that share numbers with earlier ones: within the halves, and across them.
pub(crate) fn put_overlaps(
    alloc: Global,
    faults: &mut Vec<Spot>,
    ranges: &[MarkedRange],
) -> Result<(), AllocError>
    ensures { OnOk result (Gains (ReservedOverlap ranges.now) faults.old.items faults.new.items) }
{
    // Most lists rise, and those overlap nowhere.
    if ranges.is_sorted_by(|a, b| a.start <= a.end && a.end < b.start) {
        return Ok(());
    }
    let (early, late) = ranges.split_at(ranges.len() / 2);
    put_overlaps(alloc, faults, early)?;
    put_overlaps(alloc, faults, late)?;
    put_across(alloc, faults, early, late)
}
