//! Each worker's row of pieces.

ghost use Rattle.std.specs.Prelude.{◌⊎◌, ◌≡◌, ℕ, ◌+◌, ◌*◌, ◌++◌, ◌<◌, ◌≤◌, All, length, IfOk, IsOkAnd, OnOk};
ghost use Rattle.std.specs.Thread.{IsSync, IsSend};
ghost use Rattle.share_work.specs.Shares.{SeatsGain, SeatsHave, AddsInRow, KeepsNumbers, TakesAll};
ghost use Rattle.share_work.specs.WorkerRows.{GivesRow, GivesRows};

use super::{Job, Row};
use crate::{Gate, Work};
use std::alloc::AllocError;
use std::collections::VecDeque;
use std::thread::{Threads, join_mut};

/// The rows of all workers. Only the seats of workers that have a piece are lent to threads, and the other rows are empty.
pub(super) fn all_rows<R, G, T, W, O, S>(
    rt: &R,
    job: &Job<'_, G, T, W>,
    seats: &mut [S],
) -> Result<VecDeque<Row<O>>, AllocError>
where
    R: Threads + Sync,
    G: Gate + Sync,
    T: Sync,
    W: Work<T, Out = O, Seat = S> + Sync,
    O: Send + Drop,
    S: Send + Drop,
    requires items { 0 < length job.now.items.now }
    requires seats { length seats.old ≡ job.now.plan.workers }
    requires fit { All (W.fits job.now.work.now) seats.old }
    requires takes { TakesAll (W.takes job.now.work.now) 0 job.now.items.now }
    ensures fit { All (W.fits job.now.work.now) seats.new }
    ensures numbers { KeepsNumbers (W.number job.now.work.now) seats.old seats.new }
    ensures gains { SeatsGain (W.holds job.now.work.now) (W.adds job.now.work.now)
        job.now.plan.workers job.now.plan.cut job.now.items.now 0 seats.old seats.new }
    ensures have { OnOk result (SeatsHave (W.holds job.now.work.now) (W.adds job.now.work.now)
        job.now.plan.workers job.now.plan.cut job.now.items.now 0 seats.new) }
    ensures rows { IfOk result (λ rows. GivesRows (W.gives job.now.work.now) (λ v. v.items)
        (λ r. r.items) job.now.plan.workers job.now.plan.cut job.now.items.now 0
        job.now.plan.workers rows.items) }
{
    let pieces = job.items.len().div_ceil(job.plan.cut() as usize);
    let busy = pieces.min(seats.len());
    let (lent, _idle) = seats.split_at_mut(busy);
    let rows = busy_rows(rt, job, lent)?;
    with_idle_rows(job, rows, busy)
}

/// The rows of the workers that have a piece, of which there is one at least. One alone starts no thread.
fn busy_rows<R, G, T, W, O, S>(
    rt: &R,
    job: &Job<'_, G, T, W>,
    seats: &mut [S],
) -> Result<VecDeque<Row<O>>, AllocError>
where
    R: Threads + Sync,
    G: Gate + Sync,
    T: Sync,
    W: Work<T, Out = O, Seat = S> + Sync,
    O: Send + Drop,
    S: Send + Drop,
    requires some { 0 < length seats.old }
    requires within { length seats.old ≤ job.now.plan.workers }
    requires fit { All (W.fits job.now.work.now) seats.old }
    requires takes { TakesAll (W.takes job.now.work.now) 0 job.now.items.now }
    ensures fit { All (W.fits job.now.work.now) seats.new }
    ensures numbers { KeepsNumbers (W.number job.now.work.now) seats.old seats.new }
    ensures gains { SeatsGain (W.holds job.now.work.now) (W.adds job.now.work.now)
        job.now.plan.workers job.now.plan.cut job.now.items.now 0 seats.old seats.new }
    ensures have { OnOk result (SeatsHave (W.holds job.now.work.now) (W.adds job.now.work.now)
        job.now.plan.workers job.now.plan.cut job.now.items.now 0 seats.new) }
    ensures rows { IfOk result (λ rows. GivesRows (W.gives job.now.work.now) (λ v. v.items)
        (λ r. r.items) job.now.plan.workers job.now.plan.cut job.now.items.now 0
        (length seats.old) rows.items) }
{
    if seats.len() == 1 {
        own_row(job, 0, seats)
    } else {
        rows_from(rt, job, 0, seats)
    }
}

/// Adds an empty row for each worker that has no piece.
fn with_idle_rows<G, T, W: Work<T, Out = O>, O: Drop>(
    job: &Job<'_, G, T, W>,
    rows: VecDeque<Row<O>>,
    busy: usize,
) -> Result<VecDeque<Row<O>>, AllocError>
    requires busy { busy ≤ job.now.plan.workers }
    requires idle { busy < job.now.plan.workers
        → length job.now.items.now ≤ busy * job.now.plan.cut }
    requires rows { GivesRows (W.gives job.now.work.now) (λ v. v.items) (λ r. r.items)
        job.now.plan.workers job.now.plan.cut job.now.items.now 0 busy rows.items }
    ensures rows { IfOk result (λ rows. GivesRows (W.gives job.now.work.now) (λ v. v.items)
        (λ r. r.items) job.now.plan.workers job.now.plan.cut job.now.items.now 0
        job.now.plan.workers rows.items) }
{
    let mut rows = rows;
    for _worker in busy..job.plan.workers() as usize {
        rows.push_back(VecDeque::new(job.alloc))?;
    }
    Ok(rows)
}

/// The row of one worker, whose seat is the only one of these; `from` is its number.
fn own_row<G, T, W, O, S>(
    job: &Job<'_, G, T, W>,
    from: usize,
    seats: &mut [S],
) -> Result<VecDeque<Row<O>>, AllocError>
where
    G: Gate,
    W: Work<T, Out = O, Seat = S>,
    O: Drop,
    requires one { length seats.old ≡ 1 }
    requires within { from < job.now.plan.workers }
    requires fit { All (W.fits job.now.work.now) seats.old }
    requires takes { TakesAll (W.takes job.now.work.now) 0 job.now.items.now }
    ensures fit { All (W.fits job.now.work.now) seats.new }
    ensures numbers { KeepsNumbers (W.number job.now.work.now) seats.old seats.new }
    ensures gains { SeatsGain (W.holds job.now.work.now) (W.adds job.now.work.now)
        job.now.plan.workers job.now.plan.cut job.now.items.now from seats.old seats.new }
    ensures have { OnOk result (SeatsHave (W.holds job.now.work.now) (W.adds job.now.work.now)
        job.now.plan.workers job.now.plan.cut job.now.items.now from seats.new) }
    ensures rows { IfOk result (λ rows. GivesRows (W.gives job.now.work.now) (λ v. v.items)
        (λ r. r.items) job.now.plan.workers job.now.plan.cut job.now.items.now from
        (length seats.old) rows.items) }
{
    let mut rows = VecDeque::new(job.alloc);
    rows.push_back(row_of(job, from, &mut seats[0])?)?;
    Ok(rows)
}

/// The rows of the workers whose seats these are, each by a thread of its own; `from` is the first one's number. The calling
/// thread works on none of them and waits, since a thread that it has started may wait for its processor.
#[cycle(chain)]
fn rows_from<R, G, T, W, O, S>(
    rt: &R,
    job: &Job<'_, G, T, W>,
    from: usize,
    seats: &mut [S],
) -> Result<VecDeque<Row<O>>, AllocError>
where
    R: Threads + Sync,
    G: Gate + Sync,
    T: Sync,
    W: Work<T, Out = O, Seat = S> + Sync,
    O: Send + Drop,
    S: Send + Drop,
    requires within { from + length seats.old ≤ job.now.plan.workers }
    requires fit { All (W.fits job.now.work.now) seats.old }
    requires takes { TakesAll (W.takes job.now.work.now) 0 job.now.items.now }
    ensures fit { All (W.fits job.now.work.now) seats.new }
    ensures numbers { KeepsNumbers (W.number job.now.work.now) seats.old seats.new }
    ensures gains { SeatsGain (W.holds job.now.work.now) (W.adds job.now.work.now)
        job.now.plan.workers job.now.plan.cut job.now.items.now from seats.old seats.new }
    ensures have { OnOk result (SeatsHave (W.holds job.now.work.now) (W.adds job.now.work.now)
        job.now.plan.workers job.now.plan.cut job.now.items.now from seats.new) }
    ensures rows { IfOk result (λ rows. GivesRows (W.gives job.now.work.now) (λ v. v.items)
        (λ r. r.items) job.now.plan.workers job.now.plan.cut job.now.items.now from
        (length seats.old) rows.items) }
{
    if seats.is_empty() {
        return Ok(VecDeque::new(job.alloc));
    }
    let (low, high) = seats.split_at_mut(1);
    low_and_high(rt, job, from, low, high)
}

/// The row of the worker whose seat is `low`, and the rows of those behind it.
#[cycle(chain)]
fn low_and_high<R, G, T, W, O, S>(
    rt: &R,
    job: &Job<'_, G, T, W>,
    from: usize,
    low: &mut [S],
    high: &mut [S],
) -> Result<VecDeque<Row<O>>, AllocError>
where
    R: Threads + Sync,
    G: Gate + Sync,
    T: Sync,
    W: Work<T, Out = O, Seat = S> + Sync,
    O: Send + Drop,
    S: Send + Drop,
    requires one { length low.old ≡ 1 }
    requires within { from + length low.old + length high.old ≤ job.now.plan.workers }
    requires takes { TakesAll (W.takes job.now.work.now) 0 job.now.items.now }
    requires fit_low { All (W.fits job.now.work.now) low.old }
    requires fit_high { All (W.fits job.now.work.now) high.old }
    ensures fit_low { All (W.fits job.now.work.now) low.new }
    ensures fit_high { All (W.fits job.now.work.now) high.new }
    ensures numbers_low { KeepsNumbers (W.number job.now.work.now) low.old low.new }
    ensures numbers_high { KeepsNumbers (W.number job.now.work.now) high.old high.new }
    ensures gains_low { SeatsGain (W.holds job.now.work.now) (W.adds job.now.work.now)
        job.now.plan.workers job.now.plan.cut job.now.items.now from low.old low.new }
    ensures gains_high { SeatsGain (W.holds job.now.work.now) (W.adds job.now.work.now)
        job.now.plan.workers job.now.plan.cut job.now.items.now (from + length low.old) high.old
        high.new }
    ensures have_low { OnOk result (SeatsHave (W.holds job.now.work.now) (W.adds job.now.work.now)
        job.now.plan.workers job.now.plan.cut job.now.items.now from low.new) }
    ensures have_high { OnOk result (SeatsHave (W.holds job.now.work.now) (W.adds job.now.work.now)
        job.now.plan.workers job.now.plan.cut job.now.items.now (from + length low.old) high.new) }
    ensures rows { IfOk result (λ rows. GivesRows (W.gives job.now.work.now) (λ v. v.items)
        (λ r. r.items) job.now.plan.workers job.now.plan.cut job.now.items.now from
        (length low.old + length high.old) rows.items) }
{
    let up = from + low.len();
    let mut front = || -> Result<VecDeque<Row<O>>, AllocError>
        requires { IsSync G.row × IsSync T.row × IsSync W.row × IsSend O.row × IsSend S.row
            × (length low.now ≡ 1) × (from < job.now.plan.workers)
            × All (W.fits job.now.work.now) low.now
            × TakesAll (W.takes job.now.work.now) 0 job.now.items.now }
        ensures { All (W.fits job.entry.now.work.now) low.exit.now
            × KeepsNumbers (W.number job.entry.now.work.now) low.entry.now low.exit.now
            × SeatsGain (W.holds job.entry.now.work.now) (W.adds job.entry.now.work.now)
            job.entry.now.plan.workers job.entry.now.plan.cut job.entry.now.items.now from
            low.entry.now low.exit.now
            × OnOk result (SeatsHave (W.holds job.entry.now.work.now)
            (W.adds job.entry.now.work.now) job.entry.now.plan.workers job.entry.now.plan.cut
            job.entry.now.items.now from low.exit.now)
            × IfOk result (λ rows. GivesRows (W.gives job.entry.now.work.now) (λ v. v.items)
            (λ r. r.items) job.entry.now.plan.workers job.entry.now.plan.cut job.entry.now.items.now
            from (length low.entry.now) rows.items) }
    { own_row(job, from, low) };
    let mut back = || -> Result<VecDeque<Row<O>>, AllocError>
        requires { IsSync R.row × IsSync G.row × IsSync T.row × IsSync W.row × IsSend O.row
            × IsSend S.row
            × (up + length high.now ≤ job.now.plan.workers)
            × All (W.fits job.now.work.now) high.now
            × TakesAll (W.takes job.now.work.now) 0 job.now.items.now }
        ensures { All (W.fits job.entry.now.work.now) high.exit.now
            × KeepsNumbers (W.number job.entry.now.work.now) high.entry.now high.exit.now
            × SeatsGain (W.holds job.entry.now.work.now) (W.adds job.entry.now.work.now)
            job.entry.now.plan.workers job.entry.now.plan.cut job.entry.now.items.now up
            high.entry.now high.exit.now
            × OnOk result (SeatsHave (W.holds job.entry.now.work.now)
            (W.adds job.entry.now.work.now) job.entry.now.plan.workers job.entry.now.plan.cut
            job.entry.now.items.now up high.exit.now)
            × IfOk result (λ rows. GivesRows (W.gives job.entry.now.work.now) (λ v. v.items)
            (λ r. r.items) job.entry.now.plan.workers job.entry.now.plan.cut job.entry.now.items.now
            up (length high.entry.now) rows.items) }
    { rows_from(rt, job, up, high) };
    let (first, second) = join_mut(rt, &mut front, &mut back);
    join_rows(first, second)
}

/// The rows of both halves, unless memory ran out in one of them.
fn join_rows<O: Drop>(
    low: Result<VecDeque<Row<O>>, AllocError>,
    high: Result<VecDeque<Row<O>>, AllocError>,
) -> Result<VecDeque<Row<O>>, AllocError>
    ensures { IfOk result (λ rows. IsOkAnd low
        (λ low. IsOkAnd high (λ high. rows.items ≡ low.items ++ high.items))) }
{
    let mut low = low?;
    let mut high = high?;
    low.append(&mut high)?;
    Ok(low)
}

/// Works on the pieces of one worker, in rising order.
fn row_of<G: Gate, T, W: Work<T, Out = O, Seat = S>, O: Drop, S>(
    job: &Job<'_, G, T, W>,
    worker: usize,
    seat: &mut S,
) -> Result<Row<O>, AllocError>
    requires worker { worker < job.now.plan.workers }
    requires fits { W.fits job.now.work.now seat.old }
    requires takes { TakesAll (W.takes job.now.work.now) 0 job.now.items.now }
    ensures fits { W.fits job.now.work.now seat.new }
    ensures number { W.number job.now.work.now seat.new ≡ W.number job.now.work.now seat.old }
    ensures kept { (x n : ℕ) → W.holds job.now.work.now seat.old x n
        → W.holds job.now.work.now seat.new x n }
    ensures within { (x n : ℕ) → W.holds job.now.work.now seat.new x n
        → W.holds job.now.work.now seat.old x n
        ⊎ AddsInRow (W.adds job.now.work.now) job.now.plan.workers job.now.plan.cut
        job.now.items.now worker x n }
    ensures gained { OnOk result ((x n : ℕ)
        → AddsInRow (W.adds job.now.work.now) job.now.plan.workers job.now.plan.cut
        job.now.items.now worker x n → W.holds job.now.work.now seat.new x n) }
    ensures row { IfOk result (λ row. GivesRow (W.gives job.now.work.now) (λ v. v.items)
        job.now.plan.workers job.now.plan.cut job.now.items.now worker row.items) }
{
    let mut row = VecDeque::new(job.alloc);
    let items = job.items;
    let workers = job.plan.workers() as usize;
    let cut = job.plan.cut() as usize;
    let mut piece = worker;
    let mut first = worker * cut;
    while first < items.len() {
        job.gate.enter(job.phase, piece as u64);
        let count = cut.min(items.len() - first);
        let outs = job
            .work
            .piece(job.alloc, seat, first, &items[first..first + count])?;
        row.push_back(outs)?;
        if items.len() - first <= workers * cut {
            return Ok(row);
        }
        first += workers * cut;
        piece += workers;
    }
    Ok(row)
}
