//! The files of a set: their names, and their order by these.

ghost use Rattle.std.specs.Prelude.{◌≡◌, ◌≢◌, ◌↔◌, ℕ, ◌+◌, ◌<◌, ◌≤◌, All, List, Err, IfErr, IfOk, IsTrue, MatchOption, Some, length, map, slice_get};
ghost use Rattle.proto_base.specs.Limits.{limit_of};
ghost use Rattle.proto_base.specs.declared.limits.Limit.TheVariants as limit;
ghost use Rattle.proto_compilation.specs.Compilation.{file_bytes};
ghost use Rattle.proto_sets.specs.SetFaults.{IsLeastFault, TellsOf, name_at};
ghost use Rattle.proto_sets.specs.SetSteps.{AreSorted, IsFirstNameless, IsFirstRepeated, IsNameless, file_of, files_of};
ghost use Rattle.proto_sets.specs.Sets.{AreByName, AreFilesIn, HasName, IsNamedFile};
ghost use Rattle.proto_sets.specs.declared.error.ReadError.TheVariants as errors;

use crate::error::{ReadError, fields_in};
use crate::fault::{FaultyFile, SetError, SetKind, refusal, refusal_of_file};
use crate::head::utf8;
use crate::last::last_text;
use crate::texts::file_texts;
use proto_base::Limits;
use std::alloc::{AllocError, Global};

/// A file of a set: its name, and its bytes. The order is that of the fields.
#[derive(Clone, Copy, PartialEq, Eq, PartialOrd, Ord)]
pub(crate) struct NamedBytes<'b> {
    pub(crate) name: &'b str,
    pub(crate) bytes: &'b [u8],
}

/// The name in the bytes of a file, which may be empty.
fn name_in<'b>(alloc: Global, bytes: &'b [u8]) -> Result<&'b str, ReadError>
    ensures name { IfOk result (λ name. HasName bytes.now name.now) }
    ensures malformed { result ≡ Err errors.Malformed → (name : List ℕ)
        → HasName bytes.now name → ⊥ }
{
    let fields = fields_in(alloc, bytes)?;
    utf8(last_text(&fields, 1))
}

/// The file of these bytes, which stands at a position in the set.
fn file_at<'b>(alloc: Global, at: usize, bytes: &'b [u8]) -> Result<NamedBytes<'b>, SetError>
    ensures bytes { IfOk result (λ file. file.bytes.now ≡ bytes.now) }
    ensures named { IfOk result (λ file. IsNamedFile (file_of file)) }
    ensures first { IfErr result (TellsOf (IsNameless at bytes.now)) }
{
    match name_in(alloc, bytes) {
        Ok(name) => {
            if name.is_empty() {
                return Err(refusal(SetKind::FileWithoutName, FaultyFile::At(at)));
            }
            Ok(NamedBytes { name, bytes })
        }
        Err(ReadError::Malformed) => Err(refusal(SetKind::MalformedFile, FaultyFile::At(at))),
        Err(ReadError::NoMemory) => Err(SetError::NoMemory),
    }
}

/// The files of these bytes, in their order.
fn files_at<'b>(alloc: Global, texts: &[&'b [u8]]) -> Result<Vec<NamedBytes<'b>>, SetError>
    ensures bytes { IfOk result (λ files. map file_bytes (files_of files.items)
        ≡ map (λ t. t.now) texts.now) }
    ensures named { IfOk result (λ files. All IsNamedFile (files_of files.items)) }
    ensures first { IfErr result (TellsOf (IsFirstNameless (map (λ t. t.now) texts.now))) }
{
    let mut files = Vec::with_capacity(alloc, texts.len())?;
    for (at, bytes) in texts.iter().enumerate() {
        files.push(file_at(alloc, at, *bytes)?)?;
    }
    Ok(files)
}

/// The files of a set, in their order there.
fn files_in<'b>(
    alloc: Global,
    set: &'b [u8],
    limits: &Limits,
) -> Result<Vec<NamedBytes<'b>>, SetError>
    ensures files { IfOk result (λ files. AreFilesIn limits.now set.now (files_of files.items)) }
    ensures first { IfErr result (TellsOf (IsLeastFault limits.now set.now)) }
{
    let texts = file_texts(alloc, set, limits)?;
    files_at(alloc, &texts)
}

/// Files by name; those of one name by their bytes.
fn sorted<'b>(files: Vec<NamedBytes<'b>>) -> Result<Vec<NamedBytes<'b>>, AllocError>
    ensures { IfOk result (λ sorted. AreSorted (files_of files.entry.items) (files_of sorted.items)) }
{
    let mut files = files;
    files.sort()?;
    Ok(files)
}

/// Whether two files have one name.
fn have_one_name(first: &NamedBytes, second: &NamedBytes) -> bool
    ensures { IsTrue result ↔ (first.now.name.now ≡ second.now.name.now) }
{
    first.name == second.name
}

/// Whether the next file has the name of the one at a position.
fn is_repeated(files: &[NamedBytes], at: usize) -> bool
    requires { at + 1 < length files.now }
    ensures { IsTrue result
        ↔ (name_at (files_of files.now) at ≡ name_at (files_of files.now) (at + 1)) }
{
    have_one_name(&files[at], &files[at + 1])
}

/// The first of sorted files of which the next one has the name.
fn first_repeated(files: &[NamedBytes]) -> Option<usize>
    ensures { MatchOption result ((k : ℕ) → k + 1 < length files.now
        → name_at (files_of files.now) k ≢ name_at (files_of files.now) (k + 1))
        (IsFirstRepeated (files_of files.now)) }
{
    for next in 1..files.len() {
        if is_repeated(files, next - 1) {
            return Some(next - 1);
        }
    }
    None
}

/// The files of a set, in the order of their names. No two may have one name.
pub(crate) fn files_by_name<'b>(
    alloc: Global,
    set: &'b [u8],
    limits: &Limits,
) -> Result<Vec<NamedBytes<'b>>, SetError>
    ensures files { IfOk result (λ files. AreByName limits.now set.now (files_of files.items)) }
    ensures first { IfErr result (TellsOf (IsLeastFault limits.now set.now)) }
{
    let files = sorted(files_in(alloc, set, limits)?)?;
    match first_repeated(&files) {
        Some(at) => Err(refusal_of_file(alloc, SetKind::FileNameTwice, files[at].name)),
        None => Ok(files),
    }
}
