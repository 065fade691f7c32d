//! What each item gives, by workers that keep nothing from one item to the next.

ghost use Rattle.std.specs.Prelude.{ℕ, ◌≡◌, IfOk};
ghost use Rattle.share_work.specs.Shares.{GivesItems, TakesAll};

use crate::{Gate, Plan, Work, in_shares};
use std::alloc::{AllocError, AllocGlobal, Global};
use std::thread::Threads;

/// What is done with one item, whatever was done with others.
pub trait ItemWork<T> {
    /// What one item gives.
    type Out;

    // The items that it takes, each at its position.
    ghost takes: { Self → ℕ → T → Type 0 };

    // The out that an item at a position may give.
    ghost gives: { Self → ℕ → T → Self.Out → Type 0 };

    /// Works on the item that stands at a position of all items.
    fn item(&self, alloc: Global, position: usize, item: &T) -> Result<Self::Out, AllocError>
        requires takes { takes self.now position item.now }
        ensures gives { IfOk result (gives self.now position item.now) };
}

/// Works on the items of a piece one by one, with a seat that holds nothing.
#[derive(Drop)]
struct OneByOne<'a, W> {
    work: &'a W,
}

impl<T, W> Work<T> for OneByOne<'_, W>
where
    W: ItemWork<T>,
    W::Out: Drop,
{
    ghost use Rattle.std.specs.Prelude.{⊤, ◌<◌, ◌^◌};

    type Out = W::Out;

    type Seat = ();

    ghost takes = { λ one i item. (i < 2 ^ 64) × W.takes one.work.now i item };

    ghost fits = { λ _ _. ⊤ };

    ghost gives = { λ one i item out. W.gives one.work.now i item out };

    ghost number = { λ _ _. 0 };

    ghost holds = { λ _ _ _ _. ⊤ };

    ghost adds = { λ _ _ _ _ _. ⊤ };

    fn piece(
        &self,
        alloc: Global,
        _seat: &mut (),
        first: usize,
        items: &[T],
    ) -> Result<Vec<W::Out>, AllocError> {
        let mut outs = Vec::with_capacity(alloc, items.len())?;
        for (k, item) in items.iter().enumerate() {
            outs.push(self.work.item(alloc, first + k, item)?)?;
        }
        Ok(outs)
    }
}

/// What each item gives, in the order of the items, by workers that keep nothing.
///
/// Each worker goes through the gate with `phase` and the piece's number as it begins a piece. Threads are those of
/// `in_shares`: the calling one, where one worker has all pieces, and else one for each worker with a piece. An answer is
/// `AllocError` where memory is refused, to the call or to an item. All workers have ended when it comes.
pub fn each_in_shares<R, G, T, W, O>(
    rt: &R,
    plan: Plan,
    phase: u8,
    gate: &G,
    items: &[T],
    work: &W,
) -> Result<Vec<O>, AllocError>
where
    R: Threads + AllocGlobal + Sync,
    G: Gate + Sync,
    T: Sync,
    W: ItemWork<T, Out = O> + Sync,
    O: Send + Drop,
    requires takes { TakesAll (W.takes work.now) 0 items.now }
    ensures outs { IfOk result (λ outs. GivesItems (W.gives work.now) 0 items.now outs.items) }
{
    let one_by_one = OneByOne { work };
    let mut seats = Vec::from_elem(rt.alloc(), (), plan.workers() as usize)?;
    in_shares(
        rt,
        plan,
        phase,
        gate,
        items,
        &one_by_one,
        seats.as_mut_slice(),
    )
}
