//! What is done about custom options.

ghost use Rattle.std.specs.Prelude.{◌≡◌, OnOk};
ghost use Rattle.skipped_sources.specs.Options.{taken};

use source_skip::skip;
use std::alloc::{AllocError, Global};

/// What is done about custom options, extensions and imports of what is not there.
#[derive(Clone, Copy)]
pub enum CustomOptions {
    /// Each is a fault.
    Refuse,
    /// Sources are read as if they were not there.
    Skip,
}

impl CustomOptions {
    /// Puts spaces in place of what is left out of a text that was read, where that is skipped.
    pub fn apply(self, alloc: Global, text: &mut [u8]) -> Result<(), AllocError>
        ensures { OnOk result (text.new ≡ taken self text.old) }
    {
        match self {
            CustomOptions::Refuse => Ok(()),
            CustomOptions::Skip => skip(alloc, text),
        }
    }
}
