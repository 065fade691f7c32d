//! The faults of the types that files name, by workers.

ghost use Rattle.std.specs.Prelude.{◌≡◌, ◌++◌, IfOk, IfSome, IsSome, OnOk, map};
ghost use Rattle.file_faults.specs.FaultSpots.{AreAllTypeFaults, AreWithin, CanBeTyped, in_file, spots_from};
ghost use Rattle.proto_base.specs.NameOrder.{NamesRise};
ghost use Rattle.proto_links.specs.Imports.{name_of as desc_name};
ghost use Rattle.proto_links.specs.Linked.{AreLinked, count_of};
ghost use Rattle.proto_names.specs.Index.{Indexes};

use proto_base::{Limits, Spot};
use proto_desc::file::FileDesc;
use proto_links::{FileSpot, LinkError, Links, link};
use proto_names::{NameError, NameIndex, Threading};
use proto_types::type_faults;
use share_work::phases::RESOLVING;
use share_work::{Gate, ItemWork, Plan, each_in_shares};
use std::alloc::{AllocError, AllocGlobal, Global};
use std::thread::Threads;

/// Where the names that files spell are looked up.
#[derive(Drop)]
struct Lookup {
    links: Links,
    index: NameIndex,
}

/// The links of files and the index of their names; none where an import or a name is wrong.
fn lookup_of<R>(rt: &R, descs: &[FileDesc], limits: &Limits) -> Result<Option<Lookup>, AllocError>
where
    R: Threads + AllocGlobal + Sync,
    requires { NamesRise (map desc_name descs.now) }
    ensures found { IfOk result (λ found. IfSome found (λ lookup. AreLinked descs.now lookup.links
        × Indexes descs.now limits.now lookup.index)) }
    ensures right { CanBeTyped limits.now descs.now → IfOk result (λ found. IsSome found) }
{
    let links = match link(rt.alloc(), descs) {
        Ok(links) => links,
        Err(LinkError::At(..)) => return Ok(None),
        Err(LinkError::NoMemory) => return Err(AllocError),
    };
    match NameIndex::build_by(rt, descs, limits, Threading::Shared) {
        Ok(index) => Ok(Some(Lookup { links, index })),
        Err(NameError::At(..)) => Ok(None),
        Err(NameError::TooMany) => Ok(None),
        Err(NameError::NoMemory) => Err(AllocError),
    }
}

/// Finds the faults of the types that files name, of each file by itself.
#[derive(Drop)]
struct Typing<'a> {
    links: &'a Links,
    index: &'a NameIndex,
    ghost indexed: { index.now.files ≡ count_of links.now },
}

impl<'s> ItemWork<FileDesc<'s>> for Typing<'_> {
    ghost use Rattle.std.specs.Prelude.{◌<◌};
    ghost use Rattle.file_faults.specs.FaultSpots.{AreTypeFaults};
    ghost use Rattle.proto_links.specs.Linked.{count_of};

    type Out = Vec<Spot>;

    ghost takes = { λ work file _. file < count_of work.links.now };

    ghost gives = { λ work file desc faults. AreTypeFaults work.links.now work.index.now file desc
        faults.items };

    fn item(
        &self,
        alloc: Global,
        file: usize,
        desc: &FileDesc<'s>,
    ) -> Result<Vec<Spot>, AllocError> {
        type_faults(alloc, self.index, self.links, file, desc)
    }
}

/// Puts spots of the file at a position behind others.
fn put_row(spots: &mut Vec<FileSpot>, file: usize, row: &[Spot]) -> Result<(), AllocError>
    ensures { OnOk result (spots.new.items ≡ spots.old.items ++ map (in_file file) row.now) }
{
    for spot in row {
        spots.push(FileSpot { file, spot: *spot })?;
    }
    Ok(())
}

/// The spots of each file as one list.
fn joined(alloc: Global, rows: &[Vec<Spot>]) -> Result<Vec<FileSpot>, AllocError>
    ensures { IfOk result (λ spots. spots.items ≡ spots_from 0 rows.now) }
{
    let mut spots = Vec::new(alloc);
    for (file, row) in rows.iter().enumerate() {
        put_row(&mut spots, file, row.as_slice())?;
    }
    Ok(spots)
}

/// All faults of the types that files name, where their imports and their names are right.
pub(crate) fn all_type_faults<R, G>(
    rt: &R,
    descs: &[FileDesc],
    limits: &Limits,
    plan: Plan,
    gate: &G,
) -> Result<Vec<FileSpot>, AllocError>
where
    R: Threads + AllocGlobal + Sync,
    G: Gate + Sync,
    requires { NamesRise (map desc_name descs.now) }
    ensures faults { CanBeTyped limits.now descs.now
        → IfOk result (λ spots. AreAllTypeFaults descs.now spots.items) }
    ensures within { IfOk result (λ spots. AreWithin descs.now spots.items) }
{
    let Some(lookup) = lookup_of(rt, descs, limits)? else {
        return Ok(Vec::new(rt.alloc()));
    };
    let work = Typing {
        links: &lookup.links,
        index: &lookup.index,
    };
    let rows = each_in_shares(rt, plan, RESOLVING, gate, descs, &work)?;
    joined(rt.alloc(), &rows)
}
