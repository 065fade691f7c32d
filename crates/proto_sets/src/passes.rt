//! The passes over imports and over names.

ghost use Rattle.std.specs.Prelude.{◌≡◌, ◌<◌, All, IfErr, IfOk, List, length, ℕ, map};
ghost use Rattle.proto_base.specs.NameOrder.{NamesRise};
ghost use Rattle.proto_compilation.specs.Compilation.{CompiledFile};
ghost use Rattle.proto_links.specs.Imports.{name_of, NoneBad};
ghost use Rattle.proto_links.specs.Linked.{AreLinked};
ghost use Rattle.proto_names.specs.Index.{IndexesNames};
ghost use Rattle.proto_sets.specs.SetFaults.{IsLeastFault, TellsOf};
ghost use Rattle.proto_sets.specs.SetSteps.{AreNamed, import_kind as kind_by};
ghost use Rattle.proto_sets.specs.Sets.{Contents, head_of, names_from};

use crate::fault::{FaultyFile, SetError, SetKind, refusal, refusal_of_file};
use proto_base::{Kind, Limits};
use proto_desc::file::FileDesc;
use proto_links::{LinkError, Links, link};
use proto_names::{Entries, NameError, NameIndex};
use std::alloc::Global;

/// What is wrong with an import.
fn import_kind(kind: Kind) -> SetKind
    ensures { result ≡ kind_by kind }
{
    match kind {
        Kind::ImportMissing => SetKind::ImportMissing,
        _ => SetKind::ImportCycle,
    }
}

/// The links of files with these heads.
pub(crate) fn link_all(alloc: Global, heads: &[FileDesc]) -> Result<Links, SetError>
    requires { NamesRise (map name_of heads.now) }
    ensures linked { IfOk result (AreLinked heads.now) }
    ensures first { (limits : Limits) (set : List ℕ) (files : List CompiledFile)
        (contents : List Contents) → AreNamed limits set files contents
        → heads.now ≡ map head_of contents
        → IfErr result (TellsOf (IsLeastFault limits set)) }
{
    match link(alloc, heads) {
        Ok(links) => Ok(links),
        Err(LinkError::NoMemory) => Err(SetError::NoMemory),
        Err(LinkError::At(at, _, kind)) => Err(refusal_of_file(
            alloc,
            import_kind(kind),
            heads[at].name.as_str(),
        )),
    }
}

/// The index of the names in files with these heads. An error is the first fault where imports are right.
pub(crate) fn index_all(
    alloc: Global,
    names: Entries,
    heads: &[FileDesc],
    limits: &Limits,
) -> Result<NameIndex, SetError>
    requires { All (λ o. o.file < length heads.now) names }
    ensures indexed { IfOk result (IndexesNames (length heads.now) names limits.now) }
    ensures first { (set : List ℕ) (files : List CompiledFile) (contents : List Contents)
        → AreNamed limits.now set files contents → heads.now ≡ map head_of contents
        → names ≡ names_from 0 contents → NoneBad heads.now
        → IfErr result (TellsOf (IsLeastFault limits.now set)) }
{
    match NameIndex::of_names(alloc, names, heads.len(), limits) {
        Ok(index) => Ok(index),
        Err(NameError::NoMemory) => Err(SetError::NoMemory),
        Err(NameError::TooMany) => Err(refusal(SetKind::TooManyNames, FaultyFile::WholeSet)),
        Err(NameError::At(at, _)) => Err(refusal_of_file(
            alloc,
            SetKind::NameTwice,
            heads[at].name.as_str(),
        )),
    }
}
