//! Collecting the occurrences in files, which are dealt out to threads in parts.

ghost use Rattle.std.specs.Prelude.{◌≡◌, ◌<◌, ◌≤◌, IfOk, IfSome, length};
ghost use Rattle.proto_names.specs.Collected.{AreCollected, ArePartsOf, ArePlaced, IsCollected, files_in};
ghost use Rattle.share_work.specs.Shares.{GivesItems};

use crate::collect::collect_files;
use crate::collected::Collected;
use crate::entries::Entries;
use crate::part::Part;
use proto_desc::file::FileDesc;
use share_work::phases::UNGATED;
use share_work::{ItemWork, NoGate, Plan, each_in_shares};
use std::alloc::{AllocError, AllocGlobal, Global};
use std::thread::Threads;

/// Collects the occurrences in parts, each by itself.
#[derive(Drop)]
struct Collecting {
    limit: u64,
}

impl<'f, 's> ItemWork<Part<'f, 's>> for Collecting {
    ghost use Rattle.std.specs.Prelude.{⊤};
    ghost use Rattle.proto_names.specs.Collected.{IsCollected};

    type Out = Option<Entries>;

    ghost takes = { λ _ _ _. ⊤ };

    ghost gives = { λ work _ part out. IsCollected work.limit part.first part.files.now out };

    fn item(
        &self,
        alloc: Global,
        _position: usize,
        part: &Part<'f, 's>,
    ) -> Result<Option<Entries>, AllocError> {
        collect_files(alloc, part.first, part.files, self.limit)
    }
}

/// How many threads collect, and then sort.
pub(crate) const THREADS: u32 = 4;

/// Files in so many parts, each of which has as many as another, or one more.
fn parts_of<'f, 's>(
    alloc: Global,
    files: &'f [FileDesc<'s>],
    count: usize,
) -> Result<Vec<Part<'f, 's>>, AllocError>
    requires { 0 < count }
    ensures parts { IfOk result (λ parts. ArePartsOf files.now parts.items) }
    ensures count { IfOk result (λ parts. length parts.items ≡ count) }
{
    let mut parts = Vec::with_capacity(alloc, count)?;
    let mut first = 0;
    for k in 0..count {
        let end = first + (files.len() - first) / (count - k);
        parts.push(Part {
            first,
            files: &files[first..end],
        })?;
        first = end;
    }
    Ok(parts)
}

/// The occurrences in each part, or none where they are more than the limit.
fn collect_each<R>(rt: &R, parts: &[Part], limit: u64) -> Result<Vec<Option<Entries>>, AllocError>
where
    R: Threads + AllocGlobal + Sync,
    ensures { IfOk result (λ outs. GivesItems
        (λ _ part. IsCollected limit part.first part.files.now) 0 parts.now outs.items) }
{
    let Some(plan) = Plan::new(THREADS, 1) else {
        unreachable!()
    };
    let work = Collecting { limit };
    each_in_shares(rt, plan, UNGATED, &NoGate, parts, &work)
}

/// The occurrences in each part, or none where all of them are more than the limit.
fn within(
    alloc: Global,
    parts: &[Part],
    outs: Vec<Option<Entries>>,
    limit: u64,
) -> Result<Option<Collected>, AllocError>
    requires placed { ArePlaced parts.now }
    requires outs { GivesItems (λ _ part. IsCollected limit part.first part.files.now) 0 parts.now
        outs.items }
    ensures all { IfOk result (AreCollected limit (files_in parts.now)) }
    ensures parts { IfOk result (λ found. IfSome found (λ all. length all ≤ length parts.now)) }
{
    let mut all = Vec::with_capacity(alloc, outs.len())?;
    let mut count = 0;
    for out in outs {
        let Some(entries) = out else {
            return Ok(None);
        };
        let len = entries.len() as u64;
        if len > limit - count {
            return Ok(None);
        }
        count += len;
        all.push(entries)?;
    }
    Ok(Some(Collected { parts: all }))
}

/// The occurrences in files, in parts, or none where they are more than the limit.
pub(crate) fn collect_in_threads<R>(
    rt: &R,
    files: &[FileDesc],
    limit: u64,
) -> Result<Option<Collected>, AllocError>
where
    R: Threads + AllocGlobal + Sync,
    ensures all { IfOk result (AreCollected limit files.now) }
    ensures parts { IfOk result (λ found. IfSome found (λ all. length all ≤ 4)) }
{
    let alloc = rt.alloc();
    let parts = parts_of(alloc, files, THREADS as usize)?;
    let outs = collect_each(rt, &parts, limit)?;
    within(alloc, &parts, outs, limit)
}
