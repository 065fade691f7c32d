//! All bad imports.

ghost use Rattle.std.specs.Prelude.{◌≡◌, ◌++◌, [], ℕ, ◌+◌, ◌<◌, AllPairs, IfOk, OnOk, length, map};
ghost use Rattle.digraph.specs.Edges.{graph_of};
ghost use Rattle.proto_base.specs.NameOrder.{NamesRise};
ghost use Rattle.proto_base.specs.Sets.{Gains};
ghost use Rattle.proto_links.specs.Bad.{AreAllBad};
ghost use Rattle.proto_links.specs.Graphs.{AreBadTo, AreMarkedBack, HasNoWayBack, IsGraph, IsWrongIn, spot_of_file};
ghost use Rattle.proto_links.specs.Imports.{imports_at, name_of};

use crate::faults::fault_of;
use crate::graph::import_graph;
use crate::links::FileId;
use digraph::{mark_reached, predecessors, rank_nodes};
use proto_base::{Spot, sort_spots};
use proto_desc::file::{FileDesc, ImportDescriptor};
use std::alloc::{AllocError, Global};

/// What is wrong at a place of a file. The order is that of the fields.
#[derive(Clone, Copy, PartialEq, Eq, PartialOrd, Ord)]
pub struct FileSpot {
    pub file: FileId,
    pub spot: Spot,
}

/// Puts the bad imports of a file, where those files that it imports and that reach it are marked.
fn put_wrong(
    files: &[FileDesc],
    file: FileId,
    imports: &[ImportDescriptor],
    reaching: &[bool],
    spots: &mut Vec<Spot>,
) -> Result<(), AllocError>
    requires order { NamesRise (map name_of files.now) }
    requires room { length reaching.now ≡ length files.now }
    requires reaching { AreMarkedBack files.now file imports.now reaching.now }
    ensures { OnOk result (Gains (IsWrongIn files.now file imports.now)
        spots.old.items spots.new.items) }
{
    for import in imports {
        if let Some(kind) = fault_of(files, file, import, reaching) {
            let place = import.place;
            spots.push(Spot { place, kind })?;
        }
    }
    Ok(())
}

/// Puts spots of one file behind those of others.
fn put_spots(bad: &mut Vec<FileSpot>, file: FileId, spots: &[Spot]) -> Result<(), AllocError>
    ensures { OnOk result (bad.new.items ≡ bad.old.items ++ map (spot_of_file file) spots.now) }
{
    for spot in spots {
        let spot = *spot;
        bad.push(FileSpot { file, spot })?;
    }
    Ok(())
}

/// Puts the bad imports of a file behind those of the files before it, where those files that it imports and that reach
/// it are marked.
fn put_bad_of(
    alloc: Global,
    files: &[FileDesc],
    file: FileId,
    reaching: &[bool],
    bad: &mut Vec<FileSpot>,
) -> Result<(), AllocError>
    requires order { NamesRise (map name_of files.now) }
    requires file { file < length files.now }
    requires room { length reaching.now ≡ length files.now }
    requires reaching { AreMarkedBack files.now file (imports_at files.now file) reaching.now }
    requires before { AreBadTo files.now file bad.old.items }
    ensures { OnOk result (AreBadTo files.now (file + 1) bad.new.items) }
{
    let mut spots = Vec::new(alloc);
    put_wrong(
        files,
        file,
        files[file].imports.as_slice(),
        reaching,
        &mut spots,
    )?;
    sort_spots(&mut spots);
    put_spots(bad, file, &spots)
}

/// Puts all bad imports, where no file reaches itself by an import: those that name no file.
fn put_missing(alloc: Global, files: &[FileDesc], bad: &mut Vec<FileSpot>) -> Result<(), AllocError>
    requires order { NamesRise (map name_of files.now) }
    requires no_way_back { HasNoWayBack files.now }
    requires empty { bad.old.items ≡ [] }
    ensures { OnOk result (AreAllBad files.now bad.new.items) }
{
    let reaching = vec![in alloc; false; files.len()]?;
    for file in 0..files.len() {
        put_bad_of(alloc, files, file, &reaching, bad)?;
    }
    Ok(())
}

/// Puts all bad imports. A file without imports has none, and costs no search for the files that reach it.
fn put_bad(
    alloc: Global,
    files: &[FileDesc],
    imports: &[Vec<usize>],
    bad: &mut Vec<FileSpot>,
) -> Result<(), AllocError>
    requires order { NamesRise (map name_of files.now) }
    requires graph { IsGraph files.now (graph_of imports.now) }
    requires empty { bad.old.items ≡ [] }
    ensures { OnOk result (AreAllBad files.now bad.new.items) }
{
    let turned = predecessors(alloc, imports)?;
    for file in 0..files.len() {
        if !files[file].imports.is_empty() {
            let reaching = mark_reached(alloc, &turned, file)?;
            put_bad_of(alloc, files, file, &reaching, bad)?;
        }
    }
    Ok(())
}

/// All bad imports of files: by file, then by place, then by the number of the kind, each once. The files are named by
/// their positions in the list. `link` tells the first of these faults.
///
/// The kind is `ImportMissing` where no file has the name, `ImportCycle` where the file that has it reaches the
/// importer. Only memory can be refused.
pub fn bad_imports(alloc: Global, files: &[FileDesc]) -> Result<Vec<FileSpot>, AllocError>
    requires { NamesRise (map name_of files.now) }
    ensures { IfOk result (λ bad. AreAllBad files.now bad.items) }
{
    let graph = import_graph(alloc, files)?;
    let mut bad = Vec::new(alloc);
    if rank_nodes(alloc, &graph.imports)?.is_some() {
        put_missing(alloc, files, &mut bad)?;
    } else {
        put_bad(alloc, files, &graph.imports, &mut bad)?;
    }
    Ok(bad)
}
