//! The first root that reaches each file, from the marks of workers with seats of one table.

ghost use Rattle.std.specs.Prelude.{◌≡◌, ℕ, ◌<◌, ◌≤◌, ◌^◌, All, IfOk, IfSome, MatchOption, length, reverse, slice_index, sum_by, []};
ghost use Rattle.std.specs.Option.{ForSome};
ghost use Rattle.std.specs.List.{flat_map};
ghost use Rattle.share_work.specs.Marks.{mark_whole};
ghost use Rattle.first_reach.specs.First.{first_reach};

use share_work::phases::MARKING;
use share_work::{Gate, Least, MarkSeat, MarkTable, Plan, Reach, Work, in_shares};
use std::alloc::{AllocError, AllocGlobal, Global};
use std::thread::Threads;

/// Marks each root with its position.
#[derive(Drop)]
struct Marking<'a, F: Reach> {
    table: &'a MarkTable<'a, F>,
}

impl<F: Reach> Work<Option<usize>> for Marking<'_, F> {
    ghost use Rattle.std.specs.Prelude.{⊤, ◌≡◌, ◌<◌, ℕ};
    ghost use Rattle.std.specs.Option.{ForSome};
    ghost use Rattle.share_work.specs.Posts.{NONE};
    ghost use Rattle.first_reach.specs.Seats.{HasPosted, Posts};

    type Out = ();

    type Seat = MarkSeat;

    ghost takes = { λ w i root. (i < NONE) × ForSome root (λ r. r < F.files w.table.now.reach) };

    ghost fits = { λ w s. s.table ≡ w.table.now.table };

    ghost gives = { λ _ _ _ _. ⊤ };

    ghost number = { λ _ s. s.view.least.parts };

    ghost holds = { λ w s g n. HasPosted (F.list w.table.now.reach) s g n };

    ghost adds = { λ w i root g n. Posts (F.list w.table.now.reach) i root g n };

    fn piece(
        &self,
        alloc: Global,
        seat: &mut MarkSeat,
        first: usize,
        items: &[Option<usize>],
    ) -> Result<Vec<()>, AllocError> {
        let outs = Vec::from_elem(alloc, (), items.len())?;
        for (k, root) in items.iter().enumerate() {
            if let Some(root) = root {
                self.table.mark(seat, *root, (first + k) as u64);
            }
        }
        Ok(outs)
    }
}

/// One seat for each worker.
fn split_seats<F: Reach>(
    alloc: Global,
    table: &MarkTable<'_, F>,
    seat: MarkSeat,
    workers: u32,
) -> Result<Vec<MarkSeat>, AllocError>
    requires table { seat.table ≡ table.now.table }
    requires whole { seat.view ≡ mark_whole }
    requires workers { (0 < workers) × (workers ≤ 64) }
    ensures len { IfOk result (λ v. length v.items ≡ workers) }
    ensures table { IfOk result (λ v. All (λ s. s.table ≡ table.now.table) v.items) }
    ensures parts { IfOk result (λ v. sum_by (λ s. s.view.least.parts) v.items ≡ 2 ^ 32) }
    ensures marks { IfOk result (λ v. All (λ s. s.view.marks ≡ []) v.items) }
{
    let mut seat = seat;
    let mut seats = Vec::new(alloc);
    for _other in 1..workers {
        let other = table.split(&mut seat, 1);
        seats.push(other)?;
    }
    seats.push(seat)?;
    Ok(seats)
}

/// All seats in one.
fn join_seats<F: Reach>(table: &MarkTable<'_, F>, seats: Vec<MarkSeat>) -> Option<MarkSeat>
    requires { All (λ s. s.table ≡ table.now.table) seats.items }
    ensures some { MatchOption result (length seats.items ≡ 0) (λ s. 0 < length seats.items) }
    ensures table { IfSome result (λ s. s.table ≡ table.now.table) }
    ensures parts { IfSome result (λ s. s.view.least.parts
        ≡ sum_by (λ t. t.view.least.parts) seats.items) }
    ensures marks { IfSome result (λ s. s.view.marks
        ≡ flat_map (λ t. t.view.marks) (reverse seats.items)) }
{
    let mut seats = seats;
    let mut seat = seats.pop()?;
    while let Some(other) = seats.pop() {
        table.join(&mut seat, other);
    }
    Some(seat)
}

/// The position of the first root that reaches each file, or `NONE`.
pub(crate) fn firsts<R, G, F>(
    rt: &R,
    reach: &F,
    plan: Plan,
    gate: &G,
    roots: &[Option<usize>],
) -> Result<Least, AllocError>
where
    R: Threads + AllocGlobal + Sync,
    G: Gate + Sync,
    F: Reach + Sync,
    requires { All (λ root. ForSome root (λ r. r < F.files reach.now)) roots.now }
    ensures count { IfOk result (λ l. length l ≡ F.files reach.now) }
    ensures first { IfOk result (λ l. (g : ℕ) → g < F.files reach.now
        → slice_index l g ≡ first_reach (F.list reach.now) roots.now g) }
{
    let (table, seat) = MarkTable::new(rt.alloc(), reach)?;
    let mut seats = split_seats(rt.alloc(), &table, seat, plan.workers())?;
    let work = Marking { table: &table };
    in_shares(rt, plan, MARKING, gate, roots, &work, seats.as_mut_slice())?;
    let Some(seat) = join_seats(&table, seats) else {
        unreachable!()
    };
    let Ok(least) = table.close(seat) else {
        unreachable!()
    };
    Ok(least)
}
