//! The pass over the types that files name.

ghost use Rattle.std.specs.Prelude.{◌≡◌, ◌<◌, List, length, All, IfOk, IfErr, true};
ghost use Rattle.proto_desc.specs.Resolved.{file_resolved};
ghost use Rattle.proto_compile.specs.Analysed.{AreTypedFrom, IsAnalysed};
ghost use Rattle.proto_compile.specs.FaultSet.{IsLeastFault, TellsOf};
ghost use Rattle.proto_compile.specs.declared.source.Source.{Source};
ghost use Rattle.proto_links.specs.Linked.{Linked, count_of};
ghost use Rattle.proto_names.specs.Index.{Index};
ghost use Rattle.proto_base.specs.declared.limits.Limits.{Limits};

use crate::error::CompileError;
use crate::outcome::judge;
use crate::pass::Pass;
use crate::pass::filling::put_types;
use crate::source::Source;
use crate::workers::Workers;
use proto_base::FileError;
use proto_desc::file::FileDesc;
use proto_links::Links;
use proto_names::NameIndex;
use proto_types::{NamedType, resolve_types};
use share_work::phases::RESOLVING;
use share_work::{Gate, ItemWork};
use std::alloc::{AllocError, AllocGlobal, Global};
use std::thread::Threads;

/// Resolves the names of types in files, each by itself.
#[derive(Drop)]
struct Resolving<'a> {
    links: &'a Links,
    index: &'a NameIndex,
    ghost indexed: { index.now.files ≡ count_of links.now },
}

impl<'s> ItemWork<FileDesc<'s>> for Resolving<'_> {
    ghost use Rattle.std.specs.Prelude.{◌<◌};
    ghost use Rattle.proto_compile.specs.Outcomes.{IsResolved};
    ghost use Rattle.proto_links.specs.Linked.{count_of};

    type Out = Result<Vec<NamedType>, FileError>;

    ghost takes = { λ work file _. file < count_of work.links.now };

    ghost gives = { λ work file desc outcome. IsResolved work.links.now work.index.now file desc
        outcome };

    fn item(
        &self,
        alloc: Global,
        file: usize,
        desc: &FileDesc<'s>,
    ) -> Result<Result<Vec<NamedType>, FileError>, AllocError> {
        Ok(resolve_types(alloc, self.index, self.links, file, desc))
    }
}

/// The descriptors with their types resolved.
pub(crate) fn resolve_all<'s, R, G>(
    workers: &Workers<'_, R, G>,
    files: &[Source],
    links: &Links,
    index: &NameIndex,
    descs: Vec<FileDesc<'s>>,
) -> Result<Vec<FileDesc<'s>>, CompileError>
where
    R: Threads + AllocGlobal + Sync,
    G: Gate + Sync,
    requires files { length files.now ≡ length descs.items }
    requires links { count_of links.now ≡ length descs.items }
    requires index { index.now.files ≡ length descs.items }
    ensures typed { IfOk result (λ gs. AreTypedFrom links.now index.now 0 descs.entry.items
        gs.items) }
    ensures whole { IfOk result (λ gs. All (λ desc. file_resolved desc ≡ true) gs.items) }
    ensures first { (limits : Limits) (sources : List Source)
        → IsAnalysed limits sources files.now descs.entry.items links.now index.now
        → IfErr result (TellsOf (IsLeastFault limits sources)) }
{
    let alloc = workers.rt.alloc();
    let work = Resolving { links, index };
    let outcomes = workers.each(RESOLVING, descs.as_slice(), &work)?;
    let types = judge(alloc, Pass::Types, files, outcomes)?;
    let typed = put_types(workers, descs, types)?;
    Ok(typed)
}
