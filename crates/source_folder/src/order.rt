//! Sources in the order of their paths.

ghost use Rattle.std.specs.Prelude.{◌↔◌, IsTrue};
ghost use Rattle.std.specs.List.Sorted.{IsPermutation};
ghost use Rattle.source_folder.specs.Ordered.{AreInPathOrder, HaveTwins};

use crate::walk::ProtoEntry;

/// Sorts sources by their paths, byte by byte.
pub(crate) fn sort_by_path(sources: &mut Vec<ProtoEntry>)
    ensures order { AreInPathOrder sources.new.items }
    ensures same { IsPermutation sources.old.items sources.new.items }
{
    sources.sort_unstable_by(|first, second| first.path.cmp(&second.path));
}

/// Whether two neighbours have the same path.
pub(crate) fn have_twins(sources: &[ProtoEntry]) -> bool
    ensures { IsTrue result ↔ HaveTwins sources.now }
{
    for next in 1..sources.len() {
        if sources[next - 1].path == sources[next].path {
            return true;
        }
    }
    false
}
