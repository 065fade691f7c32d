//! Which numbers some ranges hold, told by halving.

ghost use Rattle.std.specs.Prelude.{◌↔◌, IfOk, IsTrue};
ghost use Rattle.proto_checks.specs.Covers.{AreIntervals, RisesByStart, RisesByEnd, Reached, IsRaised, IsCover};

use crate::marks::MarkedRange;
use std::alloc::{AllocError, Global};

/// The numbers from `start` to `end`, at least one.
#[derive(Clone, Copy)]
pub(crate) struct Interval {
    start: u128,
    end: u128,
}

/// The ranges that hold a number, by their starts.
fn intervals_of(alloc: Global, ranges: &[MarkedRange]) -> Result<Vec<Interval>, AllocError>
    ensures members { IfOk result (λ intervals. AreIntervals ranges.now intervals.items) }
    ensures rises { IfOk result (λ intervals. RisesByStart intervals.items) }
{
    let mut intervals = Vec::with_capacity(alloc, ranges.len())?;
    for range in ranges {
        if range.start <= range.end {
            intervals.push(Interval {
                start: range.start,
                end: range.end,
            })?;
        }
    }
    intervals.sort_by_key(|interval| interval.start)?;
    Ok(intervals)
}

/// Lets each interval end no sooner than those before it.
fn raise_ends(intervals: &mut [Interval])
    requires { RisesByStart intervals.old }
    ensures { IsRaised intervals.old intervals.new }
{
    let mut top = 0;
    for interval in intervals.iter_mut() {
        top = interval.end.max(top);
        interval.end = top;
    }
}

/// The ranges that hold a number, by their starts, each ending no sooner than those before it: what `is_reached` takes.
pub(crate) fn cover_of(alloc: Global, ranges: &[MarkedRange]) -> Result<Vec<Interval>, AllocError>
    ensures { IfOk result (λ cover. IsCover ranges.now cover.items) }
{
    let mut cover = intervals_of(alloc, ranges)?;
    raise_ends(&mut cover);
    Ok(cover)
}

/// Whether an interval of a cover has a number from `start` to `end`.
pub(crate) fn is_reached(cover: &[Interval], start: u128, end: u128) -> bool
    requires starts { RisesByStart cover.now }
    requires ends { RisesByEnd cover.now }
    ensures { IsTrue result ↔ Reached cover.now start end }
{
    let begun = cover.partition_point(|interval| interval.start <= end);
    begun > 0 && start <= cover[begun - 1].end
}
