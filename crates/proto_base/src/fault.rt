//! Faults of a list of sources, and which of them comes first.

ghost use Rattle.std.specs.Prelude.{◌≡◌};
ghost use Rattle.proto_base.specs.Fault.{found_cmp};
ghost use Rattle.proto_base.specs.Told.{found};

use crate::kind::Kind;
use crate::place::Place;
use std::cmp::Ordering;

/// What is wrong, and where. Faults are ordered by their fields as they stand here: the pass, the
/// file's name by its bytes, the step, the place and the kind by its number.
#[derive(Debug, PartialEq, Eq, PartialOrd, Ord, Drop)]
pub struct Fault {
    /// The pass over all files that finds the fault, from 0.
    pub pass: u8,
    /// The name of the file; empty where the fault is one of the whole list.
    pub file: String,
    /// The step of the pass, from 0: in pass 1 tokens, grammar and rules.
    pub step: u8,
    /// Where it stands in the file; 0 where it is one of a whole file or of the whole list.
    pub place: Place,
    /// What is wrong.
    pub kind: Kind,
}

impl Fault {
    /// Which of two faults comes first.
    pub fn order(&self, other: &Fault) -> Ordering
        ensures { result ≡ found_cmp (found self.now) (found other.now) }
    {
        self.cmp(other)
    }
}
