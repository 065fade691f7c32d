//! What the files of a set declare, in the order of their names.

ghost use Rattle.std.specs.Prelude.{◌≡◌, ◌++◌, ◌<◌, [], All, IfErr, IfOk, List, OnOk, length, ℕ, map};
ghost use Rattle.std.specs.List.{filter_map};
ghost use Rattle.proto_names.specs.Occurrences.{package_occurrences};
ghost use Rattle.proto_sets.specs.Says.{Said, said_extension, said_occurrence};
ghost use Rattle.proto_sets.specs.SaysSteps.{extension_of};
ghost use Rattle.proto_sets.specs.SetFaults.{IsLeastFault, TellsOf, of_file};
ghost use Rattle.proto_sets.specs.SetSteps.{AreWalked, IsFirstLong, IsFirstSilent, files_of};
ghost use Rattle.proto_sets.specs.Sets.{AreByName, Contents, IsShortName, SaysFile, depth_of};
ghost use Rattle.proto_sets.specs.declared.fault.SetKind.TheVariants as kind;

use crate::error::ReadError;
use crate::fault::{SetError, SetKind, refusal_of_file};
use crate::file::put_file;
use crate::files::NamedBytes;
use crate::walking::Found;
use proto_base::{Limit, Limits};
use proto_desc::file::FileDesc;
use proto_desc::narrow;
use proto_names::Entries;
use std::alloc::Global;

/// What files declare, and their heads.
#[derive(Drop)]
pub(crate) struct Walked<'b> {
    pub(crate) found: Found<'b>,
    pub(crate) heads: Vec<FileDesc<'b>>,
}

/// Puts what a file declares, which stands at a position among the names, and gives its head.
fn put_named<'b>(
    alloc: Global,
    found: &mut Found<'b>,
    at: usize,
    file: &NamedBytes<'b>,
    depth: u64,
) -> Result<FileDesc<'b>, SetError>
    ensures put { IfOk result (λ head. (said : List Said)
        × SaysFile depth file.now.bytes.now (record { head = head; said = said })
        × (found.new.names ≡ found.old.names ++ package_occurrences at head.«package»
        ++ map (said_occurrence at) said)
        × (map extension_of found.new.extensions.items
        ≡ map extension_of found.old.extensions.items ++ filter_map (said_extension at) said)) }
    ensures silent { IfErr result (TellsOf (λ x. (x ≡ of_file kind.MalformedContents file.now.name.now)
        × ((contents : Contents) → SaysFile depth file.now.bytes.now contents → ⊥))) }
{
    match put_file(alloc, found, narrow(at)?, file.bytes, depth) {
        Ok(head) => Ok(head),
        Err(ReadError::Malformed) => Err(refusal_of_file(
            alloc,
            SetKind::MalformedContents,
            file.name,
        )),
        Err(ReadError::NoMemory) => Err(SetError::NoMemory),
    }
}

/// Puts what files declare, each of which stands at its position here, and gives their heads.
fn put_files<'b>(
    alloc: Global,
    found: &mut Found<'b>,
    files: &[NamedBytes<'b>],
    depth: u64,
) -> Result<Vec<FileDesc<'b>>, SetError>
    requires names { found.old.names ≡ [] }
    requires extensions { found.old.extensions.items ≡ [] }
    ensures walked { IfOk result (λ heads. AreWalked depth (files_of files.now) found.new.names
        (map extension_of found.new.extensions.items) heads.items) }
    ensures silent { IfErr result (TellsOf (IsFirstSilent depth (files_of files.now))) }
{
    let mut heads = Vec::with_capacity(alloc, files.len())?;
    for (at, file) in files.iter().enumerate() {
        heads.push(put_named(alloc, found, at, file, depth)?)?;
    }
    Ok(heads)
}

/// That no full name has more bytes than the limit.
fn check_names(
    alloc: Global,
    names: &Entries,
    files: &[NamedBytes],
    limits: &Limits,
) -> Result<(), SetError>
    requires { All (λ o. o.file < length files.now) names.now }
    ensures short { OnOk result (All (IsShortName limits.now) names.now) }
    ensures long { IfErr result (TellsOf (IsFirstLong limits.now names.now (files_of files.now))) }
{
    match names.first_longer(limits.get(Limit::FullNameBytes) as usize) {
        Some(location) => Err(refusal_of_file(
            alloc,
            SetKind::NameTooLong,
            files[location.file as usize].name,
        )),
        None => Ok(()),
    }
}

/// What the files of a set declare, which are in the order of their names.
pub(crate) fn walk_files<'b>(
    alloc: Global,
    files: &[NamedBytes<'b>],
    limits: &Limits,
) -> Result<Walked<'b>, SetError>
    ensures walked { IfOk result (λ w. AreWalked (depth_of limits.now) (files_of files.now)
        w.found.names (map extension_of w.found.extensions.items) w.heads.items) }
    ensures short { IfOk result (λ w. All (IsShortName limits.now) w.found.names) }
    ensures first { (set : List ℕ) → AreByName limits.now set (files_of files.now)
        → IfErr result (TellsOf (IsLeastFault limits.now set)) }
{
    let mut found = Found {
        names: Entries::new(alloc),
        extensions: Vec::new(alloc),
    };
    let heads = put_files(alloc, &mut found, files, limits.get(Limit::Depth) + 2)?;
    check_names(alloc, &found.names, files, limits)?;
    Ok(Walked { found, heads })
}
