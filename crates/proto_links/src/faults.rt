//! The first bad import.

ghost use Rattle.std.specs.Prelude.{◌≡◌, ◌↔◌, ℕ, ◌<◌, IfOk, MatchOption, length, map, Contains};
ghost use Rattle.digraph.specs.Edges.{graph_of};
ghost use Rattle.digraph.specs.Marks.{IsMarked};
ghost use Rattle.proto_desc.specs.declared.file.ImportDescriptor.{ImportDescriptor};
ghost use Rattle.proto_links.specs.Graphs.{IsGraph, IsWrongIn};
ghost use Rattle.proto_links.specs.Imports.{IsNamed, IsWrong, NoneBad, Reaches, imports_at, name_of};
ghost use Rattle.proto_links.specs.Bad.{IsFirstBad};
ghost use Rattle.proto_base.specs.NameOrder.{NamesRise};
ghost use Rattle.proto_base.specs.Least.{IsLeast};
ghost use Rattle.proto_base.specs.declared.kind.Kind.{Kind};

use crate::order::file_named;
use digraph::{mark_reached, predecessors};
use proto_base::{Kind, Spot, lesser};
use proto_desc::file::{FileDesc, ImportDescriptor};
use std::alloc::{AllocError, Global};

/// What is wrong with an import of a file, where the file that it names is marked if it reaches that one.
pub(crate) fn fault_of(
    files: &[FileDesc],
    file: usize,
    import: &ImportDescriptor,
    reaching: &[bool],
) -> Option<Kind>
    requires order { NamesRise (map name_of files.now) }
    requires room { length reaching.now ≡ length files.now }
    requires reaching { (b : ℕ) → IsNamed files.now import.now.path b
        → IsMarked reaching.now b ↔ Reaches files.now b file }
    ensures { MatchOption result ((k : Kind) → IsWrong files.now file import.now k → ⊥)
        (λ kind. IsWrong files.now file import.now kind
        × ((k : Kind) → IsWrong files.now file import.now k → k ≡ kind)) }
{
    match file_named(files, import.path.as_str()) {
        None => Some(Kind::ImportMissing),
        Some(target) => {
            if reaching[target] {
                Some(Kind::ImportCycle)
            } else {
                None
            }
        }
    }
}

/// The first bad import of a file, where the files that reach it are marked.
fn first_wrong(
    files: &[FileDesc],
    file: usize,
    imports: &[ImportDescriptor],
    reaching: &[bool],
) -> Option<Spot>
    requires order { NamesRise (map name_of files.now) }
    requires room { length reaching.now ≡ length files.now }
    requires reaching { (b : ℕ) → IsMarked reaching.now b ↔ Reaches files.now b file }
    ensures { IsLeast (IsWrongIn files.now file imports.now) result }
{
    let mut first = None;
    for import in imports {
        if let Some(kind) = fault_of(files, file, import, reaching) {
            let place = import.place;
            first = lesser(first, Some(Spot { place, kind }));
        }
    }
    first
}

/// The first bad import of all files.
pub(crate) fn first_bad(
    alloc: Global,
    files: &[FileDesc],
    imports: &[Vec<usize>],
) -> Result<Option<(usize, Spot)>, AllocError>
    requires order { NamesRise (map name_of files.now) }
    requires graph { IsGraph files.now (graph_of imports.now) }
    ensures { IfOk result (λ bad. MatchOption bad (NoneBad files.now)
        (λ bad. IsFirstBad files.now bad.0 bad.1.place bad.1.kind)) }
{
    let turned = predecessors(alloc, imports)?;
    for file in 0..files.len() {
        let reaching = mark_reached(alloc, &turned, file)?;
        let first = first_wrong(files, file, files[file].imports.as_slice(), &reaching);
        if let Some(spot) = first {
            return Ok(Some((file, spot)));
        }
    }
    Ok(None)
}
