//! The faults of the items of a list, each of which is judged by itself.

ghost use Rattle.std.specs.Prelude.{OnOk};
ghost use Rattle.proto_base.specs.Sets.{Each, Gains};

use proto_base::Spot;
use std::alloc::{AllocError, Global};

/// What breaks rules by itself, whatever stands beside it.
pub(crate) trait Check {
    ghost use Rattle.std.specs.Prelude.{OnOk};
    ghost use Rattle.proto_base.specs.Sets.{Gains};
    ghost use Rattle.proto_base.specs.declared.spot.Spot.{Spot};

    /// The spots at which its rules are broken.
    ghost breaks: { Self → Spot → Type 0 };

    /// Puts these faults.
    fn put_faults(&self, alloc: Global, faults: &mut Vec<Spot>) -> Result<(), AllocError>
        ensures { OnOk result (Gains (breaks self.now) faults.old.items faults.new.items) };
}

/// Puts the faults of items.
pub(crate) fn put_each<C: Check>(
    alloc: Global,
    faults: &mut Vec<Spot>,
    items: &[C],
) -> Result<(), AllocError>
    ensures { OnOk result (Gains (Each items.now C.breaks) faults.old.items faults.new.items) }
{
    for item in items {
        item.put_faults(alloc, faults)?;
    }
    Ok(())
}
