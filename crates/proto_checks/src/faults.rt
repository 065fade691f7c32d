//! Faults are put into a vector that is lent. It may have one more than once: in the end it is told once.

ghost use Rattle.std.specs.Prelude.{◌≡◌, OnOk, Some};
ghost use Rattle.proto_base.specs.Least.{spot};
ghost use Rattle.proto_base.specs.Sets.{Gains};

use proto_base::{Kind, Place, Spot};
use std::alloc::AllocError;

/// Puts a fault.
pub(crate) fn put_fault(faults: &mut Vec<Spot>, place: Place, kind: Kind) -> Result<(), AllocError>
    ensures { OnOk result (Gains (λ x. x ≡ spot place kind) faults.old.items faults.new.items) }
{
    faults.push(Spot { place, kind })?;
    Ok(())
}

/// Puts a fault, where one was found.
pub(crate) fn put_found(faults: &mut Vec<Spot>, found: Option<Spot>) -> Result<(), AllocError>
    ensures { OnOk result (Gains (λ x. found ≡ Some x) faults.old.items faults.new.items) }
{
    match found {
        Some(spot) => put_fault(faults, spot.place, spot.kind),
        None => Ok(()),
    }
}
