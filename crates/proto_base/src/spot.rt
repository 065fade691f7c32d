//! What is wrong at a place, and which of such faults comes first.

ghost use Rattle.std.specs.Prelude.{◌↔◌, AllPairs, Contains};
ghost use Rattle.proto_base.specs.Least.{Precedes};
ghost use Rattle.proto_base.specs.Lesser.{IsLesser};
ghost use Rattle.proto_base.specs.declared.spot.Spot.{Spot};

use crate::kind::Kind;
use crate::place::Place;

/// What is wrong, and where. The order is that of the fields.
#[derive(Clone, Copy, PartialEq, Eq, PartialOrd, Ord)]
pub struct Spot {
    pub place: Place,
    pub kind: Kind,
}

/// The earlier of two faults, where there are any.
pub fn lesser(a: Option<Spot>, b: Option<Spot>) -> Option<Spot>
    ensures { IsLesser a b result }
{
    match (a, b) {
        (Some(x), Some(y)) => Some(x.min(y)),
        (Some(x), None) => Some(x),
        (None, other) => other,
    }
}

/// Sorts spots, and keeps each of them once.
pub fn sort_spots(spots: &mut Vec<Spot>)
    ensures same { (x : Spot) → Contains spots.new.items x ↔ Contains spots.old.items x }
    ensures order { AllPairs Precedes spots.new.items }
{
    spots.sort_unstable();
    spots.dedup();
}
