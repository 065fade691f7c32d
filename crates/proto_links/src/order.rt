//! Files in the order of their names, and the file of a name.

ghost use Rattle.std.specs.Prelude.{◌≡◌, ◌↔◌, ℕ, IsTrue, MatchOption, map};
ghost use Rattle.std.specs.Cmp.Lexicographic.{slice_cmp};
ghost use Rattle.std.specs.Ordering.{nat_cmp};
ghost use Rattle.std.specs.declared.cmp.Ordering.TheVariants.{Less};
ghost use Rattle.proto_links.specs.Imports.{IsNamed, name_of};
ghost use Rattle.proto_base.specs.NameOrder.{NamesRise};

use proto_desc::file::FileDesc;
use std::cmp::Ordering;

/// Whether a file's name comes before another one's, byte by byte.
fn is_before(first: &FileDesc, second: &FileDesc) -> bool
    ensures { IsTrue result ↔ (slice_cmp nat_cmp (name_of first.now) (name_of second.now) ≡ Less) }
{
    first.name.as_str() < second.name.as_str()
}

/// Whether each file's name comes before the next one's, byte by byte.
pub fn in_name_order(files: &[FileDesc]) -> bool
    ensures { IsTrue result ↔ NamesRise (map name_of files.now) }
{
    for next in 1..files.len() {
        if !is_before(&files[next - 1], &files[next]) {
            return false;
        }
    }
    true
}

/// The file of this name, by halving.
pub(crate) fn file_named(files: &[FileDesc], name: &str) -> Option<usize>
    requires { NamesRise (map name_of files.now) }
    ensures { MatchOption result ((b : ℕ) → IsNamed files.now name.now b → ⊥)
        (IsNamed files.now name.now) }
{
    match files.binary_search_by(
        |file: &FileDesc| -> Ordering
            ensures { result ≡ slice_cmp nat_cmp (name_of file.now) name.entry.now }
        { file.name.as_str().cmp(name) },
    ) {
        Ok(at) => Some(at),
        Err(_) => None,
    }
}
