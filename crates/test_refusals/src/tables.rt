//! Tables that threads share, and work in shares over one.

ghost use Rattle.std.specs.Prelude.{◌≡◌, ◌<◌, All, IfSome, length};

use crate::answers::{Answer, answer_of};
use share_samples::posting::{Posting, join_seats, two_seats};
use share_samples::two_files::Two;
use share_work::phases::UNGATED;
use share_work::{LeastSeat, LeastTable, MarkSeat, MarkTable, NONE, NoGate, Plan, in_shares};
use std::alloc::{AllocError, AllocGlobal, Global};
use std::thread::Threads;

/// The numbers that two workers post.
static NUMBERS: [u64; 3] = [9, 3, 5];

/// A number that neither posts: the work itself refuses none.
const UNPOSTED: u64 = 100;

/// Whether two workers that post the numbers give them.
fn are_given<R: Threads + AllocGlobal + Sync>(
    rt: &R,
    table: &LeastTable,
    seats: &mut [LeastSeat],
) -> Answer
    requires sizes { (0 < table.now.count) × (length seats.old ≡ 2) }
    requires tables { All (λ s. s.table ≡ table.now.table) seats.old }
    ensures { All (λ s. s.table ≡ table.now.table) seats.new }
{
    let Some(plan) = Plan::new(2, 1) else {
        return Answer::Other;
    };
    let refused = UNPOSTED;
    let work = Posting { table, refused };
    match in_shares(rt, plan, UNGATED, &NoGate, &NUMBERS, &work, seats) {
        Ok(outs) => answer_of(outs.as_slice() == NUMBERS.as_slice()),
        Err(AllocError) => Answer::NoMemory,
    }
}

/// Whether two workers gave the numbers, and the seat of all parts.
fn posted<R: Threads + AllocGlobal + Sync>(
    rt: &R,
    table: &LeastTable,
    seat: LeastSeat,
) -> (Answer, Option<LeastSeat>)
    requires { (0 < table.now.count) × (seat.table ≡ table.now.table) × (1 < seat.view.parts) }
    ensures { IfSome result.1 (λ s. s.table ≡ table.now.table) }
{
    let Ok(mut seats) = two_seats(rt.alloc(), table, seat) else {
        return (Answer::NoMemory, None);
    };
    let given = are_given(rt, table, seats.as_mut_slice());
    match join_seats(table, seats) {
        Some(seat) => (given, Some(seat)),
        None => (Answer::Other, None),
    }
}

/// The answer, and another one where the seat does not close its table, or the answer is the wanted one and the least
/// number is not 3.
fn closed(table: LeastTable, seat: LeastSeat, answer: Answer) -> Answer
    requires { (seat.table ≡ table.table) × (0 < table.count) }
{
    let Ok(words) = table.close(seat) else {
        return Answer::Other;
    };
    match answer {
        Answer::Wanted => answer_of(words.get(0) == 3),
        _ => answer,
    }
}

/// The outs come in order, and the lent seats, joined, close the table, also where a worker had no memory.
pub(crate) fn is_shared<R: Threads + AllocGlobal + Sync>(rt: &R) -> Answer {
    let Ok((table, seat)) = LeastTable::new(rt.alloc(), 1) else {
        return Answer::NoMemory;
    };
    let (given, seat) = posted(rt, &table, seat);
    match seat {
        Some(seat) => closed(table, seat, given),
        None => given,
    }
}

/// Whether posts and a look answer what is wanted.
fn are_least(table: &LeastTable, seat: &mut LeastSeat) -> bool
    requires { (seat.old.table ≡ table.now.table) × (0 < table.now.count) }
    ensures { seat.new.table ≡ seat.old.table }
{
    let answers = [
        table.post(seat, 0, 5),
        table.post(seat, 0, 3),
        table.least(seat, 0),
    ];
    answers == [NONE, 5, 3]
}

pub(crate) fn has_least(alloc: Global) -> Answer {
    let Ok((table, mut seat)) = LeastTable::new(alloc, 1) else {
        return Answer::NoMemory;
    };
    let answer = answer_of(are_least(&table, &mut seat));
    closed(table, seat, answer)
}

/// Whether marks answer what is wanted.
fn are_marks(table: &MarkTable<'_, Two>, seat: &mut MarkSeat) -> bool
    requires { seat.old.table ≡ table.now.table }
    ensures { seat.new.table ≡ seat.old.table }
{
    let answers = [
        table.mark(seat, 0, 5),
        table.mark(seat, 0, 7),
        table.mark(seat, 1, 3),
        table.mark(seat, 0, 4),
    ];
    answers == [NONE, 5, 5, 5]
}

pub(crate) fn has_marks(alloc: Global) -> Answer {
    let reach = Two;
    let Ok((table, mut seat)) = MarkTable::new(alloc, &reach) else {
        return Answer::NoMemory;
    };
    let are_marked = are_marks(&table, &mut seat);
    match table.close(seat) {
        Ok(words) => answer_of(are_marked && words.get(0) == 4 && words.get(1) == 3),
        Err(_) => Answer::Other,
    }
}
