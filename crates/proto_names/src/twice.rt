//! Names that occur twice: the first of them, and all.

ghost use Rattle.std.specs.Prelude.{◌≡◌, ◌≢◌, ◌↔◌, ◌+◌, ◌-◌, ◌<◌, ◌≤◌, Contains, IfOk, IsTrue, false, MatchOption, length};
ghost use Rattle.proto_links.specs.declared.bad.FileSpot.{FileSpot};
ghost use Rattle.proto_names.specs.Occurrences.{NoneTwice, Occurrence, IsTwice};
ghost use Rattle.proto_names.specs.Repeated.{IsFirstTwice, name_twice};
ghost use Rattle.proto_names.specs.Order.{AreInOrder, IsEarlierOf, location_of};
ghost use Rattle.proto_names.specs.Runs.{IsRun, Repeats, at};

use crate::entry::Location;
use crate::names::Names;
use proto_base::{Kind, Spot};
use proto_links::{FileId, FileSpot};
use std::alloc::{AllocError, Global};

/// The entries of one name before a position: where they begin, and whether one of them is no package.
#[derive(Clone, Copy)]
struct NameRun {
    start: usize,
    has_element: bool,
}

/// The run before the first entry.
const NO_RUN: NameRun = NameRun {
    start: 0,
    has_element: false,
};

/// Whether what stands at a position has the name of what stands before it.
pub(crate) fn continues(names: &Names, position: usize) -> bool
    requires { position < length names.now }
    ensures same { IsTrue result → (0 < position)
        × ((at names.now (position - 1)).name ≡ (at names.now position).name) }
    ensures other { result ≡ false → 0 < position
        → (at names.now (position - 1)).name ≢ (at names.now position).name }
{
    position > 0 && names.have_one_name(position - 1, position)
}

/// The run with what stands at its end.
fn run_with(names: &Names, run: NameRun, position: usize) -> NameRun
    requires position { position < length names.now }
    requires run { IsRun names.now position position run.start run.has_element }
    ensures { IsRun names.now position (position + 1) result.start result.has_element }
{
    NameRun {
        start: run.start,
        has_element: run.has_element || names.kind(position).is_some(),
    }
}

/// The run of what stands at a position, up to that position, by the run of what stands before. Most names stand alone, and
/// no kind of these is read.
fn run_at(names: &Names, last: NameRun, position: usize) -> NameRun
    requires order { AreInOrder names.now }
    requires position { position < length names.now }
    requires last { 0 < position → IsRun names.now (position - 1) (position - 1) last.start
        last.has_element }
    ensures { IsRun names.now position position result.start result.has_element }
{
    if continues(names, position) {
        run_with(names, last, position - 1)
    } else {
        NameRun {
            start: position,
            has_element: false,
        }
    }
}

/// Whether what stands at a position repeats a name, by the run before it: a package repeats the name of what is no
/// package, all else the name of anything.
fn is_twice(names: &Names, run: NameRun, position: usize) -> bool
    requires position { position < length names.now }
    requires run { IsRun names.now position position run.start run.has_element }
    ensures { IsTrue result ↔ Repeats names.now position }
{
    run.start < position && (run.has_element || names.kind(position).is_some())
}

/// The earlier of what is known and one more.
pub(crate) fn lesser(first: Option<Location>, location: Location) -> Location
    ensures { IsEarlierOf first location result }
{
    match first {
        Some(first) => first.min(location),
        None => location,
    }
}

/// The first occurrence with another one of its name that comes no later, of entries in order.
pub(crate) fn first_twice(names: &Names) -> Option<Location>
    requires { AreInOrder names.now }
    ensures { MatchOption result (NoneTwice names.now)
        (λ location. IsFirstTwice names.now location.file location.place) }
{
    let mut first = None;
    let mut run = NO_RUN;
    for position in 0..names.len() {
        run = run_at(names, run, position);
        if is_twice(names, run, position) {
            first = Some(lesser(first, names.location(position)));
        }
    }
    first
}

/// The fault of a name that occurs twice, at a location.
fn name_twice(location: Location) -> FileSpot
    ensures { (b : Occurrence) → location ≡ location_of b → result ≡ name_twice b }
{
    let place = location.place;
    let kind = Kind::NameTwice;
    FileSpot {
        file: location.file as FileId,
        spot: Spot { place, kind },
    }
}

/// All occurrences with another one of their name that comes no later, of entries in order, as faults. One may stand
/// there more than once.
pub(crate) fn all_twice(alloc: Global, names: &Names) -> Result<Vec<FileSpot>, AllocError>
    requires { AreInOrder names.now }
    ensures { IfOk result (λ spots. (x : FileSpot)
        → Contains spots.items x ↔ ((b : Occurrence) × IsTwice names.now b × (x ≡ name_twice b))) }
{
    let mut spots = Vec::new(alloc);
    let mut run = NO_RUN;
    for position in 0..names.len() {
        run = run_at(names, run, position);
        if is_twice(names, run, position) {
            spots.push(name_twice(names.location(position)))?;
        }
    }
    Ok(spots)
}
