//! Sorting occurrences in shares, each by a thread of its own.

ghost use Rattle.std.specs.Prelude.{◌≡◌, ◌<◌, ◌≤◌, All, IfOk, IfSome, MatchOption, length};
ghost use Rattle.proto_names.specs.Occurrences.{occurrences};
ghost use Rattle.proto_names.specs.Shares.{AreAllShares, AreSharesOf, all_of};
ghost use Rattle.share_work.specs.Shares.{GivesItems};

use crate::collect::collect_files;
use crate::collected::Collected;
use crate::entries::Entries;
use crate::parts::{THREADS, collect_in_threads};
use crate::share::Share;
use crate::sorted::{SortedShare, sort_share};
use crate::threading::Threading;
use proto_desc::file::FileDesc;
use share_work::phases::UNGATED;
use share_work::{FEWEST_SHARED, ItemWork, NoGate, Plan, each_in_shares};
use std::alloc::{AllocError, AllocGlobal, Global};
use std::sync::Arc;
use std::thread::Threads;

/// Sorts the occurrences of shares, each by itself. They stand in so many files.
#[derive(Drop)]
struct Sorting<'c> {
    collected: &'c Arc<Collected>,
    files: usize,
    ghost parts: { length collected.now.value ≤ 4096 },
    ghost few: { length (all_of collected.now.value) ≤ 1_048_576 },
    ghost inside: { All (λ o. o.file < files) (all_of collected.now.value) },
}

impl ItemWork<Share> for Sorting<'_> {
    ghost use Rattle.std.specs.Prelude.{⊤};
    ghost use Rattle.proto_names.specs.Shares.{IsSortedOf, all_of, share_of};

    type Out = SortedShare;

    ghost takes = { λ _ _ _. ⊤ };

    ghost gives = { λ work _ share out.
        IsSortedOf (share_of share.count share.position (all_of work.collected.now.value)) out };

    fn item(
        &self,
        alloc: Global,
        _position: usize,
        share: &Share,
    ) -> Result<SortedShare, AllocError> {
        sort_share(alloc, self.collected, *share, self.files)
    }
}

/// So many shares, which are all.
fn all_shares(alloc: Global, count: u32) -> Result<Vec<Share>, AllocError>
    ensures { IfOk result (λ shares. AreAllShares count shares.items) }
{
    let mut shares = Vec::with_capacity(alloc, count as usize)?;
    for position in 0..count {
        shares.push(Share { position, count })?;
    }
    Ok(shares)
}

/// The occurrences of parts, which stand in so many files, in sorted shares.
fn sort_in_threads<R>(
    rt: &R,
    collected: Collected,
    files: usize,
) -> Result<Vec<SortedShare>, AllocError>
where
    R: Threads + AllocGlobal + Sync,
    requires parts { length collected ≤ 4096 }
    requires few { length (all_of collected) ≤ 1_048_576 }
    requires inside { All (λ o. o.file < files) (all_of collected) }
    ensures { IfOk result (λ outs. AreSharesOf (all_of collected) outs.items) }
{
    let Some(plan) = Plan::new(THREADS, 1) else {
        unreachable!()
    };
    let shared = Arc::new(rt.alloc(), collected)?;
    let work = Sorting {
        collected: &shared,
        files,
    };
    let shares = all_shares(rt.alloc(), THREADS)?;
    each_in_shares(rt, plan, UNGATED, &NoGate, &shares, &work)
}

/// The occurrences in files, in shares that are sorted by threads, or none where they are more than the limit.
fn sorted_in_threads<R>(
    rt: &R,
    files: &[FileDesc],
    limit: u64,
) -> Result<Option<Vec<SortedShare>>, AllocError>
where
    R: Threads + AllocGlobal + Sync,
    requires { limit ≤ 1_048_576 }
    ensures within { IfOk result (λ found. IfSome found
        (λ _. length (occurrences files.now) ≤ limit)) }
    ensures shares { IfOk result (λ found. MatchOption found (limit < length (occurrences files.now))
        (λ shares. AreSharesOf (occurrences files.now) shares.items)) }
{
    match collect_in_threads(rt, files, limit)? {
        Some(collected) => Ok(Some(sort_in_threads(rt, collected, files.len())?)),
        None => Ok(None),
    }
}

/// Occurrences that stand in so many files, sorted in one share. It starts no thread.
pub(crate) fn sort_alone(
    alloc: Global,
    entries: Entries,
    files: usize,
) -> Result<Vec<SortedShare>, AllocError>
    requires few { length entries ≤ 1_048_576 }
    requires inside { All (λ o. o.file < files) entries }
    ensures { IfOk result (λ outs. AreSharesOf entries outs.items) }
{
    let collected = Collected::in_one(alloc, entries)?;
    let shared = Arc::new(alloc, collected)?;
    let all = Share {
        position: 0,
        count: 1,
    };
    let mut outs = Vec::with_capacity(alloc, 1)?;
    outs.push(sort_share(alloc, &shared, all, files)?)?;
    Ok(outs)
}

/// The occurrences in files, sorted in one share, or none where they are more than the limit. It starts no thread.
fn sorted_alone(
    alloc: Global,
    files: &[FileDesc],
    limit: u64,
) -> Result<Option<Vec<SortedShare>>, AllocError>
    requires { limit ≤ 1_048_576 }
    ensures within { IfOk result (λ found. IfSome found
        (λ _. length (occurrences files.now) ≤ limit)) }
    ensures shares { IfOk result (λ found. MatchOption found (limit < length (occurrences files.now))
        (λ shares. AreSharesOf (occurrences files.now) shares.items)) }
{
    let Some(entries) = collect_files(alloc, 0, files, limit)? else {
        return Ok(None);
    };
    Ok(Some(sort_alone(alloc, entries, files.len())?))
}

/// The occurrences in files, in sorted shares, or none where they are more than the limit.
pub(crate) fn sorted_shares<R>(
    rt: &R,
    files: &[FileDesc],
    limit: u64,
    threading: Threading,
) -> Result<Option<Vec<SortedShare>>, AllocError>
where
    R: Threads + AllocGlobal + Sync,
    requires { limit ≤ 1_048_576 }
    ensures within { IfOk result (λ found. IfSome found
        (λ _. length (occurrences files.now) ≤ limit)) }
    ensures shares { IfOk result (λ found. MatchOption found (limit < length (occurrences files.now))
        (λ shares. AreSharesOf (occurrences files.now) shares.items)) }
{
    match threading {
        Threading::Shared if files.len() >= FEWEST_SHARED => sorted_in_threads(rt, files, limit),
        _ => sorted_alone(rt.alloc(), files, limit),
    }
}
