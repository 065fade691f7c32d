//! What a file describes, or what is wrong with it: its tokens, its grammar, and the rules that one file can break.

ghost use Rattle.std.specs.Prelude.{◌≡◌, ◌↔◌, AllPairs, Contains, IfErr, IfOk, OnOk, Some, map};
ghost use Rattle.proto_file.specs.Local.{Describes, IsFile, IsLocalFault, IsOwnFault, IsTextFault, IsUnbroken};
ghost use Rattle.proto_base.specs.FileFaults.{IsEarlier, TellsFirst, at_step};
ghost use Rattle.proto_base.specs.Least.{IsLeast};
ghost use Rattle.proto_base.specs.declared.file_fault.FileFault.{FileFault};
ghost use Rattle.proto_base.specs.declared.spot.Spot.{Spot};
ghost use Rattle.proto_checks.specs.Checks.{FileBreaks};
ghost use Rattle.proto_lower.specs.Files.{lowered};

use proto_base::{FileError, FileFault, Limits, Spot};
use proto_checks::{check_faults, first_check_fault};
use proto_desc::file::FileDesc;
use proto_lower::lower;
use proto_syntax::{ParseError, parse};
use proto_tokens::{TokenError, tokenize};
use proto_tree::FileTree;
use std::alloc::{AllocError, Global};

/// The steps in which a file is judged by itself.
const TOKENS: u8 = 0;

const GRAMMAR: u8 = 1;

const RULES: u8 = 2;

/// The tree of a text, or why it has none.
pub fn tree_of<'s>(
    alloc: Global,
    text: &'s [u8],
    limits: &Limits,
) -> Result<FileTree<'s>, FileError>
    ensures file { IfOk result (IsFile limits.now text.now) }
    ensures fault { IfErr result (TellsFirst (IsTextFault limits.now text.now)) }
{
    let tokens = match tokenize(alloc, text, limits) {
        Ok(tokens) => tokens,
        Err(TokenError::NoMemory) => return Err(FileError::NoMemory),
        Err(TokenError::At(place, kind)) => return Err(FileError::at(TOKENS, Spot { place, kind })),
    };
    let file = match parse(alloc, &tokens, limits) {
        Ok(file) => file,
        Err(ParseError::NoMemory) => return Err(FileError::NoMemory),
        Err(ParseError::At(place, kind)) => return Err(FileError::at(
            GRAMMAR,
            Spot { place, kind },
        )),
    };
    Ok(file)
}

/// Judges what the tree of a file describes: the first rule that it breaks is told.
fn judge(alloc: Global, file: &FileTree, desc: &FileDesc, limits: &Limits) -> Result<(), FileError>
    ensures unbroken { OnOk result ((x : Spot) → FileBreaks limits.now file.now desc.now x → ⊥) }
    ensures first { IfErr result (TellsFirst (λ f. (f.step ≡ 2)
        × IsLeast (FileBreaks limits.now file.now desc.now) (Some f.spot))) }
{
    match first_check_fault(alloc, file, desc, limits)? {
        Some((place, kind)) => Err(FileError::at(RULES, Spot { place, kind })),
        None => Ok(()),
    }
}

/// What the tree of a file describes, or the first rule that it breaks.
fn description_of<'s>(
    alloc: Global,
    name: &'s str,
    file: &FileTree<'s>,
    limits: &Limits,
) -> Result<FileDesc<'s>, FileError>
    ensures described { IfOk result (λ desc. IsUnbroken limits.now name.now file.now
        × (desc ≡ lowered name.now file.now)) }
    ensures first { IfErr result (TellsFirst (λ f. (f.step ≡ 2)
        × IsLeast (FileBreaks limits.now file.now (lowered name.now file.now)) (Some f.spot))) }
{
    let desc = lower(alloc, name, file)?;
    judge(alloc, file, &desc, limits)?;
    Ok(desc)
}

/// What a file of this name and text describes, or its first fault by itself: the first of its tokens, else of the grammar,
/// else the least by place and kind of the rules that it breaks. `NoMemory` comes only where the allocator had none.
pub fn describe<'s>(
    alloc: Global,
    name: &'s str,
    text: &'s [u8],
    limits: &Limits,
) -> Result<FileDesc<'s>, FileError>
    ensures described { IfOk result (Describes limits.now name.now text.now) }
    ensures first { IfErr result (TellsFirst (IsLocalFault limits.now name.now text.now)) }
{
    let file = tree_of(alloc, text, limits)?;
    description_of(alloc, name, &file, limits)
}

/// Spots at which rules are broken, as faults of this step.
fn at_rules(alloc: Global, spots: &[Spot]) -> Result<Vec<FileFault>, AllocError>
    ensures { IfOk result (λ faults. faults.items ≡ map (at_step 2) spots.now) }
{
    spots
        .iter()
        .map(|spot| FileFault {
            step: RULES,
            spot: *spot,
        })
        .collect(alloc)
}

/// The rules that a file breaks.
fn broken_rules<'s>(
    alloc: Global,
    name: &'s str,
    file: &FileTree<'s>,
    limits: &Limits,
) -> Result<Vec<FileFault>, AllocError>
    ensures all { IfOk result (λ faults. (f : FileFault) → Contains faults.items f
        ↔ ((f.step ≡ 2) × FileBreaks limits.now file.now (lowered name.now file.now) f.spot)) }
    ensures order { IfOk result (λ faults. AllPairs IsEarlier faults.items) }
{
    let desc = lower(alloc, name, file)?;
    let spots = check_faults(alloc, file, &desc, limits)?;
    at_rules(alloc, &spots)
}

/// All faults that a file of this name and text has by itself, by place and then by the kind's number, each once: the first of its
/// tokens, else that of the grammar, else each rule that it breaks. There is none exactly where it describes something.
pub fn own_faults<'s>(
    alloc: Global,
    name: &'s str,
    text: &'s [u8],
    limits: &Limits,
) -> Result<Vec<FileFault>, AllocError>
    ensures all { IfOk result (λ faults. (f : FileFault)
        → Contains faults.items f ↔ IsOwnFault limits.now name.now text.now f) }
    ensures order { IfOk result (λ faults. AllPairs IsEarlier faults.items) }
{
    match tree_of(alloc, text, limits) {
        Ok(file) => broken_rules(alloc, name, &file, limits),
        Err(FileError::First(fault)) => Ok(vec![in alloc; fault]?),
        Err(FileError::NoMemory) => Err(AllocError),
    }
}
