//! Works in shares: the order of the outs, each worker's items, threads that meet, and a work that is refused.

ghost use Rattle.std.specs.Prelude.{⊤, ◌≡◌, ◌<◌, All, length};

use super::least_tables::closed;
use share_samples::posting::{Posting, join_seats, two_seats};
use share_work::phases::UNGATED;
use share_work::{
    Gate, ItemWork, LeastSeat, LeastTable, NoGate, Plan, Work, each_in_shares, in_shares,
};
use std::alloc::{AllocError, AllocGlobal, Global};
use std::process::Abort;
use std::sync::atomic::{AtomicU64, Ordering};
use std::thread::Threads;

/// How often a thread looks for the other before the test fails.
const TURNS: u64 = 1_000_000_000;

/// Gives each item, and puts its place behind the digits of the seat, to the base 16.
struct Places;

impl Work<u32> for Places {
    type Out = u32;

    type Seat = u64;

    ghost takes = { λ _ _ _. ⊤ };

    ghost fits = { λ _ _. ⊤ };

    ghost gives = { λ _ _ _ _. ⊤ };

    ghost number = { λ _ _. 0 };

    ghost holds = { λ _ _ _ _. ⊤ };

    ghost adds = { λ _ _ _ _ _. ⊤ };

    fn piece(
        &self,
        alloc: Global,
        seat: &mut u64,
        first: usize,
        items: &[u32],
    ) -> Result<Vec<u32>, AllocError> {
        for offset in 0..items.len() {
            *seat = (*seat << 4) | (first.wrapping_add(offset) as u64 & 15);
        }
        Vec::from_slice(alloc, items)
    }
}

/// Counts the pieces that enter, and keeps a bit for each of the first 64 and the bits of the phases.
#[derive(Drop)]
struct Entries {
    count: AtomicU64,
    pieces: AtomicU64,
    phases: AtomicU64,
}

impl Entries {
    fn new() -> Entries {
        Entries {
            count: AtomicU64::new(0),
            pieces: AtomicU64::new(0),
            phases: AtomicU64::new(0),
        }
    }
}

impl Gate for Entries {
    fn enter(&self, phase: u8, piece: u64) {
        self.count.fetch_add(1, Ordering::SeqCst);
        if piece < 64 {
            self.pieces.fetch_or(1 << piece, Ordering::SeqCst);
        }
        self.phases.fetch_or(phase as u64, Ordering::SeqCst);
    }
}

/// That many items.
fn items_of<R: AllocGlobal + Abort>(rt: &R, count: u32) -> Vec<u32> {
    let mut items = Vec::new(rt.alloc());
    for i in 0..count {
        items.push(i.wrapping_mul(7)).expect(rt, "memory");
    }
    items
}

/// Shares out that many items in phase 4, and compares the outs with them.
fn share_items<R: Threads + AllocGlobal + Abort + Sync>(
    rt: &R,
    plan: Plan,
    count: u32,
    gate: &Entries,
    seats: &mut [u64],
)
    requires { length seats.old ≡ plan.workers }
{
    let items = items_of(rt, count);
    let outs = in_shares(rt, plan, 4, gate, items.as_slice(), &Places, seats);
    assert!(rt; outs.expect(rt, "memory") == items, "{count} items");
}

/// Shares out that many items, and gives each worker's places.
fn shared<R: Threads + AllocGlobal + Abort + Sync>(
    rt: &R,
    workers: u32,
    cut: u32,
    count: u32,
    gate: &Entries,
) -> Vec<u64> {
    let plan = Plan::new(workers, cut).expect(rt, "a plan");
    let seats = Vec::from_elem(rt.alloc(), 1, plan.workers() as usize);
    let mut seats = seats.expect(rt, "memory");
    share_items(rt, plan, count, gate, seats.as_mut_slice());
    seats
}

/// Workers, a cut and a count of items, and the pieces that these are.
static PIECES: [(u32, u32, u32, u64); 7] = [
    (1, 1, 1_000, 1_000),
    (2, 1, 1_000, 1_000),
    (3, 7, 1_000, 143),
    (64, 16, 1_000, 63),
    (64, 4_096, 1_000, 1),
    (5, 1_000, 1_000, 1),
    (3, 2, 0, 0),
];

/// The outs come in the order of the items, and each piece enters the gate once.
#[test]
fn outs_in_order(rt: HostRuntime) {
    for (workers, cut, count, pieces) in &PIECES {
        let gate = Entries::new();
        shared(&rt, *workers, *cut, *count, &gate);
        let entered = gate.count.load(Ordering::SeqCst);
        assert!(rt; entered == *pieces, "{workers} workers, cut {cut}");
    }
}

/// Puts an item's position before its last digit.
#[derive(Drop)]
struct Positioned;

impl ItemWork<u32> for Positioned {
    type Out = u64;

    ghost takes = { λ _ _ _. ⊤ };

    ghost gives = { λ _ _ _ _. ⊤ };

    fn item(&self, _alloc: Global, position: usize, item: &u32) -> Result<u64, AllocError> {
        Ok((position as u64).wrapping_mul(10) | u64::from(*item))
    }
}

/// Each item is worked on at its own position, and each piece enters the gate once.
#[test]
fn items_at_their_positions(rt: HostRuntime) {
    let gate = Entries::new();
    let plan = Plan::new(3, 2).expect(&rt, "a plan");
    let outs = each_in_shares(&rt, plan, 4, &gate, &[1, 1, 0, 1, 0, 1, 1], &Positioned);
    let wanted = [1, 11, 20, 31, 40, 51, 61];
    assert!(rt; outs.expect(&rt, "memory").as_slice() == wanted.as_slice());
    assert!(rt; gate.count.load(Ordering::SeqCst) == 4);
}

/// Eleven items in pieces of two, for three workers: pieces 0 and 3, 1 and 4, 2 and 5.
#[test]
fn items_of_workers(rt: HostRuntime) {
    let gate = Entries::new();
    let seats = shared(&rt, 3, 2, 11, &gate);
    assert!(rt; seats.as_slice() == [0x1_0167, 0x1_2389, 0x145A].as_slice());
    let entered = gate.count.load(Ordering::SeqCst);
    let pieces = gate.pieces.load(Ordering::SeqCst);
    let phases = gate.phases.load(Ordering::SeqCst);
    assert!(rt; entered == 6 && pieces == 0b11_1111 && phases == 4);
}

/// Lets item 0 wait until item 1 has begun, either as the gate of their pieces or as the work.
#[derive(Drop)]
struct Meeting {
    at_gate: bool,
    begun: AtomicU64,
    missed: AtomicU64,
}

impl Meeting {
    fn new(at_gate: bool) -> Meeting {
        Meeting {
            at_gate,
            begun: AtomicU64::new(0),
            missed: AtomicU64::new(0),
        }
    }

    fn come(&self, place: u64) {
        if place == 1 {
            self.begun.store(1, Ordering::SeqCst);
        }
        if place == 0 {
            for _ in 0..TURNS {
                if self.begun.load(Ordering::SeqCst) == 1 {
                    return;
                }
            }
            self.missed.store(1, Ordering::SeqCst);
        }
    }
}

impl Gate for Meeting {
    fn enter(&self, _phase: u8, piece: u64) {
        if self.at_gate {
            self.come(piece);
        }
    }
}

impl Work<u32> for Meeting {
    type Out = u32;

    type Seat = u64;

    ghost takes = { λ _ _ _. ⊤ };

    ghost fits = { λ _ _. ⊤ };

    ghost gives = { λ _ _ _ _. ⊤ };

    ghost number = { λ _ _. 0 };

    ghost holds = { λ _ _ _ _. ⊤ };

    ghost adds = { λ _ _ _ _ _. ⊤ };

    fn piece(
        &self,
        alloc: Global,
        _seat: &mut u64,
        first: usize,
        items: &[u32],
    ) -> Result<Vec<u32>, AllocError> {
        if !self.at_gate {
            self.come(first as u64);
        }
        Vec::from_slice(alloc, items)
    }
}

/// Whether both items were given, and the first one's worker saw the other one begin.
fn are_met<R, G>(rt: &R, gate: &G, meeting: &Meeting, seats: &mut [u64]) -> bool
where
    R: Threads + AllocGlobal + Abort + Sync,
    G: Gate + Sync,
    requires { length seats.old ≡ 2 }
{
    let plan = Plan::new(2, 1).expect(rt, "a plan");
    let outs = in_shares(rt, plan, 1, gate, &[5, 6], meeting, seats).expect(rt, "memory");
    outs.as_slice() == [5, 6].as_slice() && meeting.missed.load(Ordering::SeqCst) == 0
}

/// The work of the first of two items can end only where the other one's worker is at work beside it.
#[test]
fn works_meet(rt: HostRuntime) {
    let work = Meeting::new(false);
    assert!(rt; are_met(&rt, &NoGate, &work, &mut [1, 1]));
}

/// The first of two pieces can pass the gate only where the other one's worker has come there too.
#[test]
fn workers_meet(rt: HostRuntime) {
    let gate = Meeting::new(true);
    assert!(rt; are_met(&rt, &gate, &gate, &mut [1, 1]));
}

/// The number that is refused, and the least of the others.
static REFUSED: [(u64, u64); 3] = [(3, 5), (9, 3), (100, 3)];

/// Two workers post numbers, and one has no memory for the refused one.
fn post_in_shares<R: Threads + AllocGlobal + Abort + Sync>(
    rt: &R,
    table: &LeastTable,
    seats: &mut [LeastSeat],
    refused: u64,
)
    requires sizes { (0 < table.now.count) × (length seats.old ≡ 2) }
    requires tables { All (λ s. s.table ≡ table.now.table) seats.old }
    ensures { All (λ s. s.table ≡ table.now.table) seats.new }
{
    let plan = Plan::new(2, 1).expect(rt, "a plan");
    let work = Posting { table, refused };
    let outs = in_shares(rt, plan, UNGATED, &NoGate, &[9, 3, 5], &work, seats);
    assert!(rt; outs.is_err() == (refused < 100));
}

/// The seat of all parts, after two workers posted.
fn seat_after_shares<R: Threads + AllocGlobal + Abort + Sync>(
    rt: &R,
    table: &LeastTable,
    seat: LeastSeat,
    refused: u64,
) -> LeastSeat
    requires { (0 < table.now.count) × (seat.table ≡ table.now.table) × (1 < seat.view.parts) }
    ensures { result.table ≡ table.now.table }
{
    let mut seats = two_seats(rt.alloc(), table, seat).expect(rt, "memory");
    post_in_shares(rt, table, seats.as_mut_slice(), refused);
    join_seats(table, seats).expect(rt, "a seat")
}

/// The least number, where one is refused.
fn least_without<R: Threads + AllocGlobal + Abort + Sync>(rt: &R, refused: u64) -> u64 {
    let (table, seat) = LeastTable::new(rt.alloc(), 1).expect(rt, "memory");
    let seat = seat_after_shares(rt, &table, seat, refused);
    closed(rt, table, seat).get(0)
}

/// After a refusal the lent seats, joined, close their table.
#[test]
fn seats_after_a_refusal(rt: HostRuntime) {
    for (refused, least) in &REFUSED {
        assert!(rt; least_without(&rt, *refused) == *least, "{refused}");
    }
}
