//! The workers of a pass over files.

ghost use Rattle.std.specs.Prelude.{◌<◌, IfOk};
ghost use Rattle.share_work.specs.Shares.{GivesItems, TakesAll};

use proto_names::Threading;
use share_work::{FEWEST_SHARED, Gate, ItemWork, Plan, each_in_shares};
use std::alloc::{AllocError, AllocGlobal};
use std::thread::Threads;

/// What becomes of descriptors once their bytes are written.
#[derive(Clone, Copy)]
pub enum Leftovers {
    /// Their memory is given back, by the workers.
    LetGo,
    /// Their memory stays taken: a process that ends with what it compiled saves the walk over them.
    Forgotten,
}

/// The workers of a plan, the gate through which they go, and what they do with what is left.
#[derive(Drop)]
pub(crate) struct Workers<'a, R, G> {
    pub(crate) rt: &'a R,
    pub(crate) plan: Plan,
    pub(crate) gate: &'a G,
    pub(crate) leftovers: Leftovers,
}

impl<R, G> Workers<'_, R, G>
where
    R: Threads + AllocGlobal + Sync,
    G: Gate + Sync,
{
    /// Whether names are found in threads. One worker starts none for them.
    pub(crate) fn threading(&self) -> Threading {
        if self.plan.workers() == 1 {
            Threading::Alone
        } else {
            Threading::Shared
        }
    }

    /// How many threads so many items are worth, each of which takes little. One thread is the calling one.
    pub(crate) fn threads_for(&self, items: usize) -> usize
        ensures { 0 < result }
    {
        if items < FEWEST_SHARED {
            1
        } else {
            self.plan.workers() as usize
        }
    }

    /// What a work gives for each item. The gate is told the phase.
    pub(crate) fn each<T, W, O>(
        &self,
        phase: u8,
        items: &[T],
        work: &W,
    ) -> Result<Vec<O>, AllocError>
    where
        T: Sync,
        W: ItemWork<T, Out = O> + Sync,
        O: Send + Drop,
        requires { TakesAll (W.takes work.now) 0 items.now }
        ensures { IfOk result (λ outs. GivesItems (W.gives work.now) 0 items.now outs.items) }
    {
        each_in_shares(self.rt, self.plan, phase, self.gate, items, work)
    }
}
