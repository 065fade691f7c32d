//! How much may be looked at in search of what is only similar.

use std::alloc::{AllocError, Global};
use strsim::jaro_winkler;

/// How alike a name has to be to what was written, from 0 to 1, to be offered in its place; `clap` has the same for commands.
const LIKE: f64 = 0.7;

/// So many names are compared in one run, so that many faults in many files take no longer.
const MOST: usize = 200_000;

/// Texts of more bytes are like no other: what a comparison takes grows with the product of both lengths.
const LONGEST: usize = 255;

/// How many names may still be compared.
#[derive(Clone, Copy)]
pub(crate) struct Budget {
    left: usize,
}

impl Budget {
    pub(crate) fn new() -> Budget {
        Budget { left: MOST }
    }

    /// Whether so many names may be compared, which are then taken off.
    pub(crate) fn take(&mut self, count: usize) -> bool {
        let is_enough = count <= self.left;
        if is_enough {
            self.left = self.left.saturating_sub(count);
        }
        is_enough
    }
}

/// The name that is most like another among those that were offered.
#[derive(Drop)]
pub(crate) struct Nearest<'n> {
    likeness: f64,
    pub(crate) name: Option<&'n str>,
}

impl<'n> Nearest<'n> {
    pub(crate) fn new() -> Nearest<'n> {
        Nearest {
            likeness: LIKE,
            name: None,
        }
    }

    /// Offers a name for one that was written, by the parts of both that are compared.
    pub(crate) fn offer(
        &mut self,
        alloc: Global,
        written: &str,
        compared: &str,
        name: &'n str,
    ) -> Result<(), AllocError> {
        if written.len() > LONGEST || compared.len() > LONGEST {
            return Ok(());
        }
        let likeness = jaro_winkler(alloc, written, compared)?;
        if likeness > self.likeness {
            self.likeness = likeness;
            self.name = Some(name);
        }
        Ok(())
    }
}
