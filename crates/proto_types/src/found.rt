//! What a walk over the names of types has found.

ghost use Rattle.std.specs.Prelude.{◌≡◌, [], OnOk};
ghost use Rattle.proto_types.specs.Steps.{Adds};

use crate::meaning::{Meaning, NamedType, put_option_faults};
use proto_base::Spot;
use proto_desc::options::OptionDescriptor;
use std::alloc::{AllocError, Global};

/// The types that are named, in their order, and what is wrong with them, in whatever order, some of it more than once.
#[derive(Drop)]
pub(crate) struct Found {
    pub(crate) types: Vec<NamedType>,
    pub(crate) faults: Vec<Spot>,
}

impl Found {
    pub(crate) fn new(alloc: Global) -> Found
        ensures types { result.types.items ≡ [] }
        ensures faults { result.faults.items ≡ [] }
    {
        Found {
            types: Vec::new(alloc),
            faults: Vec::new(alloc),
        }
    }

    /// Adds what one more name means, as the type of a field with these options.
    pub(crate) fn add(
        &mut self,
        meaning: Meaning,
        options: &[OptionDescriptor],
    ) -> Result<(), AllocError>
        ensures { OnOk result (Adds meaning options.now self.old self.new) }
    {
        match meaning {
            Meaning::Named(named) => {
                let kind = named.kind;
                self.types.push(named)?;
                put_option_faults(&mut self.faults, kind, options)?;
            }
            Meaning::Wrong(fault) => self.faults.push(fault)?,
        }
        Ok(())
    }
}
