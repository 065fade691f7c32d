//! Compiling a list of sources.

ghost use Rattle.std.specs.Prelude.{◌≡◌, ℕ, List, true, All, Contains, IfOk, IfErr, IsErrAnd, MatchResult, OnOk, length, map};
ghost use Rattle.std.specs.List.{AllZip};
ghost use Rattle.proto_base.specs.NameOrder.{NamesRise};
ghost use Rattle.proto_base.specs.declared.file_fault.FileFault.{FileFault};
ghost use Rattle.proto_compile.specs.Analysed.{AreResolved};
ghost use Rattle.proto_compilation.specs.Compilation.{Compilation, file_bytes, file_name};
ghost use Rattle.proto_compile.specs.Compiled.{IsCompiled, IsShort, IsWritten};
ghost use Rattle.proto_compile.specs.FaultSet.{IsFault, IsLeastFault, IsPlaced, SourceFault, TellsOf, fault};
ghost use Rattle.proto_compile.specs.Descriptions.{SourceDescribes};
ghost use Rattle.proto_compile.specs.Sources.{name_of, text_of};
ghost use Rattle.proto_compilation.specs.Parts.{compilation};
ghost use Rattle.proto_compile.specs.Steps.{AreWritten, items_of};
ghost use Rattle.proto_compile.specs.declared.error.CompileError.TheVariants as errors;
ghost use Rattle.proto_desc.specs.Resolved.{file_resolved};
ghost use Rattle.proto_file.specs.Local.{IsOwnFault};
ghost use Rattle.proto_links.specs.Linked.{Linked};
ghost use Rattle.proto_names.specs.Index.{Index};
ghost use Rattle.wire_bytes.specs.Descriptor.{file_desc_bytes};
ghost use Rattle.proto_compile.specs.declared.source.Source.{Source};

use crate::analysing::{Analysis, analyse};
use crate::error::{CompileError, START, refusal};
use crate::pass::Pass;
use crate::pass::lengths::write_all;
use crate::pass::list::files_by_name;
use crate::pass::local::describe_all;
use crate::source::Source;
use crate::workers::{Leftovers, Workers};
use proto_base::{Kind, Limits};
use proto_compilation::{Compiled, FileTable};
use proto_desc::file::FileDesc;
use proto_links::Links;
use proto_names::NameIndex;
use share_work::{Gate, Plan};
use std::alloc::{AllocError, AllocGlobal, Global};
use std::thread::Threads;

/// What sources are compiled to, or their first fault: pass by pass, in the order of `Pass`.
fn run_passes<R, G>(
    workers: &Workers<'_, R, G>,
    sources: &[Source],
    limits: &Limits,
) -> Result<Compiled, CompileError>
where
    R: Threads + AllocGlobal + Sync,
    G: Gate + Sync,
    ensures compiled { IfOk result (IsCompiled limits.now sources.now) }
    ensures first { IfErr result (TellsOf (IsLeastFault limits.now sources.now)) }
{
    let alloc = workers.rt.alloc();
    let files = files_by_name(alloc, sources, limits)?;
    let analysis = analyse(workers, &files, limits)?;
    let Analysis { descs, lookup } = analysis;
    let table = write_table(workers, &files, descs, limits)?;
    compilation_of(alloc, table, lookup.links, lookup.index, limits)
}

/// The compilation of files whose bytes were written, or that their set is too long.
fn compilation_of(
    alloc: Global,
    files: FileTable,
    links: Links,
    index: NameIndex,
    limits: &Limits,
) -> Result<Compiled, CompileError>
    requires { AreWritten limits.now files links index }
    ensures compiled { (sources : List Source)
        → IsWritten limits.now sources (compilation limits.now files links index)
        → IfOk result (IsCompiled limits.now sources) }
    ensures first { (sources : List Source)
        → IsWritten limits.now sources (compilation limits.now files links index)
        → IfErr result (TellsOf (IsLeastFault limits.now sources)) }
{
    let Some(compiled) = Compiled::new(alloc, files, links, index, limits) else {
        return Err(refusal(alloc, Pass::Set, "", START, Kind::SetTooLong));
    };
    Ok(compiled)
}

/// Compiles proto3 sources: each by itself, then their imports, names and types, and the bytes of their descriptors.
///
/// The sources may come in any order; the answer is the same. `First` has their first fault: the least by pass, file name,
/// step, place and the number of its kind, where a later pass is judged only if every file has passed the earlier ones.
/// Its place lies within the text of its file; a fault of the whole list has no file name, and stands at 0. `NoMemory` comes
/// only where the allocator had none.
///
/// Workers share the files: in phase `DESCRIBING` of the gate each source by itself, in phase `RESOLVING` the types that it
/// names, and in phase `WRITING` the bytes of its descriptor. What the plan and the gate are changes nothing of the answer.
pub fn compile<R, G>(
    rt: &R,
    sources: &[Source],
    limits: &Limits,
    plan: Plan,
    gate: &G,
) -> Result<Compiled, CompileError>
where
    R: Threads + AllocGlobal + Sync,
    G: Gate + Sync,
    ensures compiled { IfOk result (IsCompiled limits.now sources.now) }
    ensures whole { IfOk result (λ c. (x : SourceFault) → IsFault limits.now sources.now x → ⊥) }
    ensures first { IfErr result (TellsOf (IsLeastFault limits.now sources.now)) }
    ensures placed { IfErr result (TellsOf (λ x. IsPlaced limits.now sources.now x.file x.place)) }

    // So sources with a compilation give it, and those with a fault tell it, unless memory runs out.
    ensures every_compilation { (c : Compilation) → IsCompiled limits.now sources.now c
        → MatchResult result (λ r. (r.files ≡ c.files) × (r.links.set_order ≡ c.links.set_order))
        (λ e. e ≡ errors.NoMemory) }
    ensures every_fault { (x : SourceFault) → IsLeastFault limits.now sources.now x
        → IsErrAnd result (TellsOf (λ y. y ≡ x)) }
{
    compile_by(rt, sources, limits, plan, gate, Leftovers::LetGo)
}

/// As `compile`, which lets go of what is left. What becomes of it changes nothing of the answer.
pub fn compile_by<R, G>(
    rt: &R,
    sources: &[Source],
    limits: &Limits,
    plan: Plan,
    gate: &G,
    leftovers: Leftovers,
) -> Result<Compiled, CompileError>
where
    R: Threads + AllocGlobal + Sync,
    G: Gate + Sync,
    ensures compiled { IfOk result (IsCompiled limits.now sources.now) }
    ensures first { IfErr result (TellsOf (IsLeastFault limits.now sources.now)) }
{
    let workers = Workers {
        rt,
        plan,
        gate,
        leftovers,
    };
    run_passes(&workers, sources, limits)
}

/// What sources describe, each by itself, in their order; or the first fault of the first of them that has one by itself.
pub fn describe_each<'s, R, G>(
    rt: &R,
    files: &[Source<'s>],
    limits: &Limits,
    plan: Plan,
    gate: &G,
) -> Result<Vec<FileDesc<'s>>, CompileError>
where
    R: Threads + AllocGlobal + Sync,
    G: Gate + Sync,
    ensures described { IfOk result (λ descs. AllZip (SourceDescribes limits.now) files.now
        descs.items) }
    ensures own { IfErr result (TellsOf (λ x. (s : Source) × Contains files.now s
        × ((f : FileFault) × IsOwnFault limits.now (name_of s) (text_of s) f
        × (x ≡ fault 1 (name_of s) f)))) }
{
    let workers = Workers {
        rt,
        plan,
        gate,
        leftovers: Leftovers::LetGo,
    };
    describe_all(&workers, files, limits)
}

/// The table of files with the bytes of what they describe, of which none has more than the limit.
fn write_table<R, G>(
    workers: &Workers<'_, R, G>,
    files: &[Source],
    descs: Vec<FileDesc>,
    limits: &Limits,
) -> Result<FileTable, CompileError>
where
    R: Threads + AllocGlobal + Sync,
    G: Gate + Sync,
    requires order { NamesRise (map name_of files.now) }
    requires files { length files.now ≡ length descs.items }
    requires resolved { All (λ desc. file_resolved desc ≡ true) descs.items }
    ensures names { IfOk result (λ table. map file_name table ≡ map name_of files.now) }
    ensures bytes { IfOk result (λ table. map file_bytes table
        ≡ map file_desc_bytes descs.entry.items) }
    ensures short { OnOk result (All (IsShort limits.now) descs.entry.items) }
    ensures first { (sources : List Source) (links : Linked) (index : Index)
        → AreResolved limits.now sources files.now descs.entry.items links index
        → IfErr result (TellsOf (IsLeastFault limits.now sources)) }
{
    let written = write_all(workers, files, descs, limits)?;
    let table = table_of(workers.rt.alloc(), files, written)?;
    Ok(table)
}

/// The table of sources in the order of their names, with the bytes of what they describe.
fn table_of(
    alloc: Global,
    sources: &[Source],
    written: Vec<Vec<u8>>,
) -> Result<FileTable, AllocError>
    requires length { length sources.now ≡ length written.items }
    requires names { NamesRise (map name_of sources.now) }
    ensures names { IfOk result (λ files. map file_name files ≡ map name_of sources.now) }
    ensures bytes { IfOk result (λ files. map file_bytes files ≡ map items_of written.items) }
{
    let mut files = FileTable::with_capacity(alloc, sources.len())?;
    for bytes in written {
        let file = files.len();
        files.push(alloc, sources[file].name, bytes)?;
    }
    Ok(files)
}
