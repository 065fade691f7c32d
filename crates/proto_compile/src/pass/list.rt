//! The pass over the list of sources: how many there are, and the order of their names.

ghost use Rattle.std.specs.Prelude.{◌≡◌, ◌≢◌, ◌↔◌, ℕ, ◌+◌, ◌-◌, ◌<◌, ◌≤◌, IsTrue, IfOk, IfErr, OnOk, MatchOption, length};
ghost use Rattle.std.specs.Cmp.Lexicographic.{slice_cmp};
ghost use Rattle.std.specs.Ordering.{nat_cmp};
ghost use Rattle.std.specs.declared.cmp.Ordering.TheVariants.{Less, Greater};
ghost use Rattle.proto_compile.specs.FaultSet.{IsLeastFault, TellsOf};
ghost use Rattle.proto_compile.specs.Sources.{AreByName, name_at, name_of};
ghost use Rattle.proto_compile.specs.Faults.{AreSorted, IsFirstRepeated};
ghost use Rattle.proto_base.specs.Limits.{limit_of};
ghost use Rattle.proto_base.specs.declared.limits.Limit.TheVariants as limit;

use crate::error::{CompileError, START, refusal};
use crate::pass::Pass;
use crate::source::Source;
use proto_base::{Kind, Limit, Limits};
use std::alloc::{AllocError, Global};

/// The sources by name; those of one name by their texts.
fn sorted<'s>(alloc: Global, sources: &[Source<'s>]) -> Result<Vec<Source<'s>>, AllocError>
    ensures { IfOk result (λ files. AreSorted sources.now files.items) }
{
    let mut files = Vec::from_slice(alloc, sources)?;
    files.sort()?;
    Ok(files)
}

/// Whether the next source has the name of the one at a position.
fn is_repeated(files: &[Source], at: usize) -> bool
    requires { at + 1 < length files.now }
    ensures { IsTrue result ↔ (name_at files.now at ≡ name_at files.now (at + 1)) }
{
    have_one_name(&files[at], &files[at + 1])
}

/// Whether two sources have one name.
fn have_one_name(first: &Source, second: &Source) -> bool
    ensures { IsTrue result ↔ (name_of first.now ≡ name_of second.now) }
{
    first.name == second.name
}

/// The first of sorted sources of which the next one has the name.
fn first_repeated(files: &[Source]) -> Option<usize>
    ensures { MatchOption result ((k : ℕ) → k + 1 < length files.now
        → name_at files.now k ≢ name_at files.now (k + 1)) (IsFirstRepeated files.now) }
{
    for next in 1..files.len() {
        if is_repeated(files, next - 1) {
            return Some(next - 1);
        }
    }
    None
}

/// The sources in the order of their names. There may be no more than the limit, and no two of one name: an error tells the first
/// fault of the list.
pub fn files_by_name<'s>(
    alloc: Global,
    sources: &[Source<'s>],
    limits: &Limits,
) -> Result<Vec<Source<'s>>, CompileError>
    ensures few { OnOk result (length sources.now ≤ limit_of limits.now limit.Files) }
    ensures files { IfOk result (λ files. AreByName sources.now files.items) }
    ensures first { IfErr result (TellsOf (IsLeastFault limits.now sources.now)) }
    ensures pass { IfErr result (TellsOf (λ x. x.pass ≡ 0)) }
{
    if sources.len() as u64 > limits.get(Limit::Files) {
        return Err(refusal(alloc, Pass::List, "", START, Kind::TooManyFiles));
    }
    let files = sorted(alloc, sources)?;
    match first_repeated(&files) {
        Some(at) => Err(refusal(
            alloc,
            Pass::List,
            files[at].name,
            START,
            Kind::FileNameTwice,
        )),
        None => Ok(files),
    }
}
