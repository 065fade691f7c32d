//! Reading a set.

ghost use Rattle.std.specs.Prelude.{◌≡◌, ℕ, IfErr, IfOk, IsErrAnd, List, MatchResult, length, map};
ghost use Rattle.proto_base.specs.NameOrder.{NamesRise};
ghost use Rattle.proto_compilation.specs.Alike.{AreAlike};
ghost use Rattle.proto_compilation.specs.Compilation.{Compilation, file_name};
ghost use Rattle.proto_compilation.specs.Parts.{declared_extension, extended};
ghost use Rattle.proto_sets.specs.SetFaults.{Fault, IsFault, IsLeastFault, TellsOf};
ghost use Rattle.proto_sets.specs.SetSteps.{files_of};
ghost use Rattle.proto_sets.specs.Sets.{IsOfSet};
ghost use Rattle.proto_sets.specs.declared.fault.SetError.TheVariants as errors;

use crate::contents::{Walked, walk_files};
use crate::fault::SetError;
use crate::files::{NamedBytes, files_by_name};
use crate::passes::{index_all, link_all};
use crate::table::table_of_extensions;
use crate::walking::Found;
use proto_base::Limits;
use proto_compilation::{Compiled, Extension, FileTable};
use proto_links::Links;
use proto_names::NameIndex;
use std::alloc::{AllocError, Global};

/// The table of files in the order of their names.
fn table_of(alloc: Global, files: &[NamedBytes]) -> Result<FileTable, AllocError>
    requires { NamesRise (map file_name (files_of files.now)) }
    ensures { IfOk result (λ table. table ≡ files_of files.now) }
{
    let mut table = FileTable::with_capacity(alloc, files.len())?;
    for file in files {
        table.push(alloc, file.name, Vec::from_slice(alloc, file.bytes)?)?;
    }
    Ok(table)
}

/// The compilation of these, which are a set's: it is no longer than the set.
fn compilation_of(
    files: FileTable,
    links: Links,
    index: NameIndex,
    extensions: Vec<Extension>,
    limits: &Limits,
) -> Compiled
    requires { (set : List ℕ) × IsOfSet limits.now set (extended limits.now files links index
        (map declared_extension extensions.items)) }
    ensures { result ≡ extended limits.now files links index
        (map declared_extension extensions.items) }
{
    match Compiled::with_extensions(files, links, index, extensions, limits) {
        Some(compiled) => compiled,
        None => unreachable!(),
    }
}

/// A set by the passes, as `read_set` has it.
fn read_passes(alloc: Global, set: &[u8], limits: &Limits) -> Result<Compiled, SetError>
    ensures read { IfOk result (IsOfSet limits.now set.now) }
    ensures first { IfErr result (TellsOf (IsLeastFault limits.now set.now)) }
{
    let files = files_by_name(alloc, set, limits)?;
    let Walked { found, heads } = walk_files(alloc, &files, limits)?;
    let Found { names, extensions } = found;
    let links = link_all(alloc, &heads)?;
    let index = index_all(alloc, names, &heads, limits)?;
    let table = table_of(alloc, &files)?;
    let tabled = table_of_extensions(alloc, &extensions)?;
    Ok(compilation_of(table, links, index, tabled, limits))
}

/// Reads a set of descriptors (`descriptor.proto`, `FileDescriptorSet`), whatever the language versions of its files are.
///
/// The files may stand in any order; the answer is the same but for faults of files that have no name. `First` has the
/// first fault: the least by pass, by the file's name, or by its position where it has none that can be read, and by kind,
/// where a later pass is judged only if every file has passed the earlier ones. `NoMemory` comes only where the allocator
/// had none.
///
/// The bytes of each file go into the compilation as they stand in the set, and its extensions are those that the files
/// declare.
pub fn read_set(alloc: Global, set: &[u8], limits: &Limits) -> Result<Compiled, SetError>
    ensures read { IfOk result (IsOfSet limits.now set.now) }
    ensures whole { IfOk result (λ c. (x : Fault) → IsFault limits.now set.now x → ⊥) }
    ensures first { IfErr result (TellsOf (IsLeastFault limits.now set.now)) }

    // So a set that is some compilation gives it, and one with a fault tells it, unless memory runs out.
    ensures every_compilation { (c : Compilation) → IsOfSet limits.now set.now c
        → MatchResult result (λ compiled. AreAlike compiled c) (λ e. e ≡ errors.NoMemory) }
    ensures every_fault { (x : Fault) → IsLeastFault limits.now set.now x
        → IsErrAnd result (TellsOf (λ y. y ≡ x)) }
{
    read_passes(alloc, set, limits)
}
