//! Numbers outside of those that may be.

ghost use Rattle.std.specs.Prelude.{◌↔◌, IsTrue, OnOk};
ghost use Rattle.proto_checks.specs.Marks.{Outside};
ghost use Rattle.proto_checks.specs.Numbers.{IsFieldNumber, IsNoFieldNumber};
ghost use Rattle.proto_base.specs.Sets.{Each, Gains};

use crate::faults::put_fault;
use crate::gathered::FIELD_MAX;
use crate::marks::MarkedNumber;
use proto_base::{Kind, Spot};
use std::alloc::AllocError;

/// Puts the numbers below the least or above the greatest.
pub(crate) fn put_outside(
    faults: &mut Vec<Spot>,
    least: u128,
    greatest: u128,
    kind: Kind,
    numbers: &[MarkedNumber],
) -> Result<(), AllocError>
    ensures { OnOk result (Gains (Outside least greatest kind numbers.now)
        faults.old.items faults.new.items) }
{
    for marked in numbers {
        if marked.number < least || marked.number > greatest {
            put_fault(faults, marked.place, kind)?;
        }
    }
    Ok(())
}

/// Whether a field may have this number (language guide, "Assigning Field Numbers").
fn is_field_number(number: u128) -> bool
    ensures { IsTrue result ↔ IsFieldNumber number }
{
    number >= 1 && number <= FIELD_MAX && !matches!(number, 19_000..=19_999)
}

/// Puts the numbers that no field may have.
pub(crate) fn put_no_field_numbers(
    faults: &mut Vec<Spot>,
    numbers: &[MarkedNumber],
) -> Result<(), AllocError>
    ensures { OnOk result (Gains (Each numbers.now IsNoFieldNumber)
        faults.old.items faults.new.items) }
{
    for marked in numbers {
        if !is_field_number(marked.number) {
            put_fault(faults, marked.place, Kind::FieldNumberRange)?;
        }
    }
    Ok(())
}
