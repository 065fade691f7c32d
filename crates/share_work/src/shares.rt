//! The outs of all items, by workers that each have a seat and a thread of their own.

ghost use Rattle.std.specs.Prelude.{ℕ, ◌≡◌, All, length, IfOk, OnOk};
ghost use Rattle.share_work.specs.Shares.{SeatsGain, SeatsHave, KeepsNumbers, GivesItems, TakesAll};

mod rows;
mod weave;

use crate::{Gate, Plan, Work};
use rows::all_rows;
use std::alloc::{AllocError, AllocGlobal, Global};
use std::collections::VecDeque;
use std::thread::Threads;
use weave::woven;

/// What all workers share.
#[derive(Drop)]
pub(crate) struct Job<'a, G, T, W> {
    pub(crate) alloc: Global,
    pub(crate) plan: Plan,
    pub(crate) phase: u8,
    pub(crate) gate: &'a G,
    pub(crate) items: &'a [T],
    pub(crate) work: &'a W,
}

/// The outs of one worker, piece by piece.
pub(crate) type Row<O> = VecDeque<Vec<O>>;

/// The outs of all items, in the order of the items.
///
/// Seat `w` is that of worker `w`. Each worker goes through the gate with `phase` and the piece's number as it begins a piece.
/// Where several workers have a piece, each of them works in a thread of its own, and the calling thread waits. One that has all
/// pieces works on the calling thread, and so does one whose thread can't be started. Where there is no memory, the seats fit all
/// the same, and have gained nothing but what the items add. All workers have ended when the answer comes, a refusal too; of that
/// no contract tells.
pub fn in_shares<R, G, T, W, O, S>(
    rt: &R,
    plan: Plan,
    phase: u8,
    gate: &G,
    items: &[T],
    work: &W,
    seats: &mut [S],
) -> Result<Vec<O>, AllocError>
where
    R: Threads + AllocGlobal + Sync,
    G: Gate + Sync,
    T: Sync,
    W: Work<T, Out = O, Seat = S> + Sync,
    O: Send + Drop,
    S: Send + Drop,
    requires seats { length seats.old ≡ plan.workers }
    requires fit { All (W.fits work.now) seats.old }
    requires takes { TakesAll (W.takes work.now) 0 items.now }
    ensures fit { All (W.fits work.now) seats.new }
    ensures numbers { KeepsNumbers (W.number work.now) seats.old seats.new }
    ensures gains { SeatsGain (W.holds work.now) (W.adds work.now) plan.workers plan.cut items.now 0
        seats.old seats.new }
    ensures have { OnOk result (SeatsHave (W.holds work.now) (W.adds work.now) plan.workers plan.cut
        items.now 0 seats.new) }
    ensures outs { IfOk result (λ v. GivesItems (W.gives work.now) 0 items.now v.items) }
{
    if items.is_empty() {
        return Ok(Vec::new(rt.alloc()));
    }
    let job = Job {
        alloc: rt.alloc(),
        plan,
        phase,
        gate,
        items,
        work,
    };
    let rows = all_rows(rt, &job, seats)?;
    woven(&job, rows)
}
