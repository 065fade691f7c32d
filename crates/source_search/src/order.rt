//! Sources in the order of their names.

ghost use Rattle.std.specs.Cmp.Lexicographic.{slice_cmp};
ghost use Rattle.std.specs.List.Sorted.{IsPermutation, IsSortedByKey};
ghost use Rattle.std.specs.Ordering.{nat_cmp};
ghost use Rattle.source_folder.specs.Folder.{name_of};

use source_folder::NamedText;

/// Sorts sources by their names, byte by byte.
pub(crate) fn sort_by_name(sources: &mut Vec<NamedText>)
    ensures order { IsSortedByKey name_of (slice_cmp nat_cmp) sources.new.items }
    ensures same { IsPermutation sources.old.items sources.new.items }
{
    sources.sort_unstable_by(|first, second| first.name.cmp(&second.name));
}
