//! The names of sources as a set.

ghost use Rattle.std.specs.Prelude.{IfOk};
ghost use Rattle.skipped_sources.specs.Losing.{HoldsNames};
ghost use Rattle.source_folder.specs.Folder.{names_of};

use source_folder::NamedText;
use std::alloc::{AllocError, Global};
use std::collections::BTreeSet;

/// The names of these sources.
pub(crate) fn names_of<'s>(
    alloc: Global,
    sources: &'s [NamedText],
) -> Result<BTreeSet<&'s str>, AllocError>
    ensures { IfOk result (HoldsNames (names_of sources.now)) }
{
    let mut names = BTreeSet::new(alloc);
    for source in sources {
        names.insert(source.name.as_str())?;
    }
    Ok(names)
}
