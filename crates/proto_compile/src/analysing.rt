//! What the passes up to types find.

ghost use Rattle.std.specs.Thread.{IsSync};
ghost use Rattle.std.specs.Prelude.{◌≡◌, ◌≤◌, List, length, map, true, All, IfOk, IfErr};
ghost use Rattle.proto_base.specs.Limits.{limit_of};
ghost use Rattle.proto_base.specs.declared.limits.Limit.TheVariants as limit;
ghost use Rattle.proto_base.specs.NameOrder.{NamesRise};
ghost use Rattle.proto_compile.specs.Analysed.{AreResolved};
ghost use Rattle.proto_compile.specs.Descriptions.{Describe};
ghost use Rattle.proto_compile.specs.FaultSet.{IsLeastFault, TellsOf};
ghost use Rattle.proto_compile.specs.Sources.{AreByName, name_of};
ghost use Rattle.proto_compile.specs.declared.source.Source.{Source};
ghost use Rattle.proto_desc.specs.Resolved.{file_resolved};
ghost use Rattle.proto_base.specs.declared.limits.Limits.{Limits};
ghost use Rattle.proto_links.specs.Imports.{NoneBad, name_of as desc_name};
ghost use Rattle.proto_links.specs.Linked.{AreLinked};
ghost use Rattle.proto_names.specs.Index.{Indexes};

use crate::error::CompileError;
use crate::pass::imports::link_all;
use crate::pass::local::describe_all;
use crate::pass::names::index_all;
use crate::pass::types::resolve_all;
use crate::source::Source;
use crate::workers::Workers;
use proto_base::Limits;
use proto_desc::file::FileDesc;
use proto_links::Links;
use proto_names::NameIndex;
use share_work::Gate;
use std::alloc::AllocGlobal;
use std::thread::{Threads, join_mut};

/// Where the names that files spell are looked up: which files each one sees, and what all of them declare.
#[derive(Drop)]
pub(crate) struct Lookup {
    pub(crate) links: Links,
    pub(crate) index: NameIndex,
}

/// The links of files, and the index of their names, each by itself: with more than one worker at the same time.
fn links_and_index<R, G>(
    workers: &Workers<'_, R, G>,
    descs: &[FileDesc],
    limits: &Limits,
) -> (Result<Links, CompileError>, Result<NameIndex, CompileError>)
where
    R: Threads + AllocGlobal + Sync,
    G: Gate + Sync,
    requires { NamesRise (map desc_name descs.now) }
    ensures linked { IfOk result.0 (AreLinked descs.now) }
    ensures unlinked { (sources files : List Source) → Describe limits.now sources files descs.now
        → IfErr result.0 (TellsOf (IsLeastFault limits.now sources)) }
    ensures indexed { IfOk result.1 (Indexes descs.now limits.now) }
    ensures unindexed { (sources files : List Source) → NoneBad descs.now
        → Describe limits.now sources files descs.now
        → IfErr result.1 (TellsOf (IsLeastFault limits.now sources)) }
{
    let alloc = workers.rt.alloc();
    if workers.plan.workers() == 1 {
        return (link_all(alloc, descs), index_all(workers, descs, limits));
    }
    let mut link = || -> Result<Links, CompileError>
        requires { NamesRise (map desc_name descs.now) }
        ensures { IfOk result (AreLinked descs.entry.now)
            × ((limits : Limits) (sources files : List Source)
            → Describe limits sources files descs.entry.now
            → IfErr result (TellsOf (IsLeastFault limits sources))) }
    { link_all(alloc, descs) };
    let mut index = || -> Result<NameIndex, CompileError>
        requires { IsSync R.row × IsSync G.row }
        ensures { IfOk result (Indexes descs.entry.now limits.entry.now)
            × ((sources files : List Source) → NoneBad descs.entry.now
            → Describe limits.entry.now sources files descs.entry.now
            → IfErr result (TellsOf (IsLeastFault limits.entry.now sources))) }
    { index_all(workers, descs, limits) };
    join_mut(workers.rt, &mut link, &mut index)
}

/// The links of files and the index of their names, or their first fault in `Pass::Imports` or `Pass::Names`.
fn lookup_of<R, G>(
    workers: &Workers<'_, R, G>,
    descs: &[FileDesc],
    limits: &Limits,
) -> Result<Lookup, CompileError>
where
    R: Threads + AllocGlobal + Sync,
    G: Gate + Sync,
    requires { NamesRise (map desc_name descs.now) }
    ensures linked { IfOk result (λ lookup. AreLinked descs.now lookup.links) }
    ensures indexed { IfOk result (λ lookup. Indexes descs.now limits.now lookup.index) }
    ensures first { (sources files : List Source) → Describe limits.now sources files descs.now
        → IfErr result (TellsOf (IsLeastFault limits.now sources)) }
{
    let (links, index) = links_and_index(workers, descs, limits);
    Ok(Lookup {
        links: links?,
        index: index?,
    })
}

/// Descriptors with their types resolved, and what their names were looked up in.
#[derive(Drop)]
pub(crate) struct Analysis<'s> {
    pub(crate) descs: Vec<FileDesc<'s>>,
    pub(crate) lookup: Lookup,
}

/// What files in the order of their names describe, or their first fault in the passes from `Pass::Local` to `Pass::Types`.
pub(crate) fn analyse<'s, R, G>(
    workers: &Workers<'_, R, G>,
    files: &[Source<'s>],
    limits: &Limits,
) -> Result<Analysis<'s>, CompileError>
where
    R: Threads + AllocGlobal + Sync,
    G: Gate + Sync,
    requires names { NamesRise (map name_of files.now) }
    ensures resolved { (sources : List Source) → length sources ≤ limit_of limits.now limit.Files
        → AreByName sources files.now
        → IfOk result (λ analysis. AreResolved limits.now sources files.now analysis.descs.items
        analysis.lookup.links analysis.lookup.index) }
    ensures whole { IfOk result (λ analysis. All (λ desc. file_resolved desc ≡ true)
        analysis.descs.items) }
    ensures first { (sources : List Source) → length sources ≤ limit_of limits.now limit.Files
        → AreByName sources files.now
        → IfErr result (TellsOf (IsLeastFault limits.now sources)) }
{
    let descs = describe_all(workers, files, limits)?;
    let lookup = lookup_of(workers, &descs, limits)?;
    let descs = resolve_all(workers, files, &lookup.links, &lookup.index, descs)?;
    Ok(Analysis { descs, lookup })
}
