//! How items are cut into pieces, and pieces are shared among workers.

ghost use Rattle.std.specs.Prelude.{◌≡◌, ◌<◌, ◌≤◌, ◌*◌, ◌↔◌, IsSome, IfSome};
ghost use Rattle.share_work.specs.Plans.{IsEvenCut};

/// Fewer items than this, each of which takes little, are not worth a thread.
pub const FEWEST_SHARED: usize = 64;

/// How many pieces each worker gets of many items, if these are shared evenly.
const PIECES_EACH: usize = 64;

/// A number of workers, 1 to 64, and how many items one piece has, 1 to 4,096.
///
/// Piece `p` has the items from `p * cut` up to `(p + 1) * cut`, as far as there are items. Worker `w` works on the pieces
/// whose number leaves `w` by division by the number of workers, in rising order.
#[derive(Clone, Copy)]
pub struct Plan {
    workers: u32,
    cut: u32,
    ghost some_workers: { 0 < workers },
    ghost few_workers: { workers ≤ 64 },
    ghost some_items: { 0 < cut },
    ghost few_items: { cut ≤ 4096 },
}

impl Plan {
    /// A plan of 1 to 64 workers and a cut of 1 to 4,096 items, else `None`.
    pub fn new(workers: u32, cut: u32) -> Option<Plan>
        ensures within { IsSome result ↔ ((1 ≤ workers) × (workers ≤ 64) × (1 ≤ cut)
            × (cut ≤ 4_096)) }
        ensures plan { IfSome result (λ p. (p.workers ≡ workers) × (p.cut ≡ cut)) }
    {
        if (1..=64).contains(&workers) && (1..=4_096).contains(&cut) {
            Some(Plan { workers, cut })
        } else {
            None
        }
    }

    /// One worker, which takes the items one by one.
    pub fn single() -> Plan
        ensures plan { (result.workers ≡ 1) × (result.cut ≡ 1) }
    {
        Plan { workers: 1, cut: 1 }
    }

    /// The same workers, and no greater pieces, which share so many items more evenly: each worker gets 64 pieces or some more,
    /// or pieces of one item. Items of which no worker gets a second piece are shared as before, since fewer threads do for them.
    pub fn evened(self, items: usize) -> Plan
        ensures workers { result.workers ≡ self.workers }
        ensures few { items ≤ self.workers * self.cut → result.cut ≡ self.cut }
        ensures even { self.workers * self.cut < items → IsEvenCut self.workers self.cut items result.cut }
    {
        let workers = self.workers as usize;
        let cut = self.cut as usize;
        if items <= workers * cut {
            return self;
        }
        let share = items / (workers * PIECES_EACH);
        Plan {
            workers: self.workers,
            cut: share.clamp(1, cut) as u32,
        }
    }

    /// How many workers there are.
    pub fn workers(&self) -> u32
        ensures { result ≡ self.now.workers }
    {
        self.workers
    }

    /// How many items a piece has.
    pub fn cut(&self) -> u32
        ensures { result ≡ self.now.cut }
    {
        self.cut
    }
}
