//! Marks over the reach of two files, of which file 0 reaches both and file 1 itself.

ghost use Rattle.std.specs.Prelude.{◌≡◌, ◌<◌, length};

use share_samples::two_files::Two;
use share_work::{Least, MarkSeat, MarkTable, NONE};
use std::process::Abort;
use std::thread::{Threads, join_mut};

/// Marks file 0.
fn mark_first(table: &MarkTable<'_, Two>, seat: &mut MarkSeat, number: u64)
    requires { (seat.old.table ≡ table.now.table) × (number < NONE) }
    ensures { seat.new.table ≡ seat.old.table }
{
    table.mark(seat, 0, number);
}

/// Marks file 0 in two threads.
fn mark_both<R: Threads>(
    rt: &R,
    table: &MarkTable<'_, Two>,
    seat: &mut MarkSeat,
    other: &mut MarkSeat,
)
    requires { (seat.old.table ≡ table.now.table) × (other.old.table ≡ table.now.table) }
    ensures { (seat.new.table ≡ seat.old.table) × (other.new.table ≡ other.old.table) }
{
    let mut here = || -> ()
        requires { seat.now.table ≡ table.now.table }
        ensures { seat.exit.now.table ≡ seat.entry.now.table }
    { mark_first(table, seat, 5) };
    let mut there = || -> ()
        requires { other.now.table ≡ table.now.table }
        ensures { other.exit.now.table ≡ other.entry.now.table }
    { mark_first(table, other, 3) };
    join_mut(rt, &mut here, &mut there);
}

/// The words of a table, of whose parts the seat has all.
fn closed<R: Abort>(rt: &R, table: MarkTable<'_, Two>, seat: MarkSeat) -> Least
    requires { seat.table ≡ table.table }
    ensures { length result ≡ 2 }
{
    let Ok(words) = table.close(seat) else {
        panic!(rt; "not closed")
    };
    words
}

#[test]
fn one_seat(rt: HostRuntime) {
    let reach = Two;
    let (table, mut seat) = MarkTable::new(rt.alloc(), &reach).expect(&rt, "memory");
    let answers = [
        table.mark(&mut seat, 0, 5),
        table.mark(&mut seat, 0, 7),
        table.mark(&mut seat, 1, 3),
        table.mark(&mut seat, 0, 4),
    ];
    assert!(rt; answers == [NONE, 5, 5, 5]);
    let words = closed(&rt, table, seat);
    assert!(rt; words.get(0) == 4 && words.get(1) == 3);
}

/// Joins seats, which only then close their table.
fn close_joined<R: Abort>(
    rt: &R,
    table: MarkTable<'_, Two>,
    seat: MarkSeat,
    other: MarkSeat,
) -> Least
    requires { (seat.table ≡ table.table) × (other.table ≡ table.table) }
    ensures { length result ≡ 2 }
{
    let Err((table, mut seat)) = table.close(seat) else {
        panic!(rt; "closed before the join")
    };
    table.join(&mut seat, other);
    closed(rt, table, seat)
}

#[test]
fn two_threads(rt: HostRuntime) {
    let reach = Two;
    let (table, mut seat) = MarkTable::new(rt.alloc(), &reach).expect(&rt, "memory");
    let mut other = table.split(&mut seat, 1);
    assert!(rt; seat.parts() == (1 << 32) - 1 && other.parts() == 1);
    mark_both(&rt, &table, &mut seat, &mut other);
    let words = close_joined(&rt, table, seat, other);
    assert!(rt; words.get(0) == 3 && words.get(1) == 3);
}

/// A seat that is split off and dropped keeps the table open.
#[test]
fn dropped_seat(rt: HostRuntime) {
    let reach = Two;
    let (table, mut seat) = MarkTable::new(rt.alloc(), &reach).expect(&rt, "memory");
    drop(table.split(&mut seat, 7));
    assert!(rt; table.close(seat).is_err());
}
