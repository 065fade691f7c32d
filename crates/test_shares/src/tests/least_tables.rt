//! Two threads at one word, and seats that keep a table open.

ghost use Rattle.std.specs.Prelude.{◌≡◌, ◌<◌, length};

use share_work::{Least, LeastSeat, LeastTable, NONE, calls_replay};
use std::alloc::AllocGlobal;
use std::process::Abort;
use std::thread::{self, Threads};

/// How often a thread looks before the test fails.
const TURNS: u64 = 1_000_000_000;

/// What a thread's post answered, what it read then, and whether it read the awaited number at last.
#[derive(Clone, Copy, Debug)]
struct Seen {
    answer: u64,
    read: u64,
    came: bool,
}

/// Posts a number at word 0, and reads until it gets the awaited one.
fn post_and_read(table: &LeastTable, seat: &mut LeastSeat, number: u64, awaited: u64) -> Seen
    requires { (seat.old.table ≡ table.now.table) × (0 < table.now.count) × (number < NONE) }
    ensures { seat.new.table ≡ seat.old.table }
{
    let answer = table.post(seat, 0, number);
    let read = table.least(seat, 0);
    let mut came = read == awaited;
    for _ in 0..TURNS {
        if came {
            break;
        }
        came = table.least(seat, 0) == awaited;
    }
    Seen { answer, read, came }
}

/// Whether both read the least at last and nothing above their own, and the one that came first got `NONE`, and the
/// other what that one had posted.
fn are_seen(here: Seen, there: Seen, first: u64, second: u64) -> bool {
    let came = here.came && there.came;
    let is_least = here.read <= first && there.read <= second;
    let here_first = here.answer == NONE && there.answer == first;
    let there_first = there.answer == NONE && here.answer == second;
    came && is_least && (here_first || there_first)
}

/// Posts a number in each of two threads, where both read the least of the two at last.
fn post_both<R: Threads + Abort>(
    rt: &R,
    table: &LeastTable,
    seats: (LeastSeat, LeastSeat),
    numbers: (u64, u64),
) -> (LeastSeat, LeastSeat)
    requires tables { (seats.0.table ≡ table.now.table) × (seats.1.table ≡ table.now.table) }
    requires posts { (0 < table.now.count) × (numbers.0 < NONE) × (numbers.1 < NONE) }
    ensures { (result.0.table ≡ table.now.table) × (result.1.table ≡ table.now.table) }
{
    let (seat, other) = seats;
    let (first, second) = numbers;
    let least = first.min(second);
    let ((here, seat), (there, other)) = thread::join(
        rt,
        move || -> (Seen, LeastSeat)
            requires { (seat.table ≡ table.now.table) × (0 < table.now.count) × (first < NONE) }
            ensures { result.1.table ≡ table.entry.now.table }
        {
            let mut seat = seat;
            let seen = post_and_read(table, &mut seat, first, least);
            (seen, seat)
        },
        move || -> (Seen, LeastSeat)
            requires { (other.table ≡ table.now.table) × (0 < table.now.count) × (second < NONE) }
            ensures { result.1.table ≡ table.entry.now.table }
        {
            let mut other = other;
            let seen = post_and_read(table, &mut other, second, least);
            (seen, other)
        },
    );
    assert!(rt; are_seen(here, there, first, second), "{here:?}, {there:?}");
    (seat, other)
}

/// The words of a table, of whose parts the seat has all.
pub(super) fn closed<R: Abort>(rt: &R, table: LeastTable, seat: LeastSeat) -> Least
    requires { seat.table ≡ table.table }
    ensures { length result ≡ table.count }
{
    let Ok(words) = table.close(seat) else {
        panic!(rt; "not closed")
    };
    words
}

/// The table and its seat again, since parts are out.
fn kept_open<R: Abort>(rt: &R, table: LeastTable, seat: LeastSeat) -> (LeastTable, LeastSeat)
    requires { seat.table ≡ table.table }
    ensures { (result.0 ≡ table) × (result.1 ≡ seat) }
{
    let Err(back) = table.close(seat) else {
        panic!(rt; "closed with a part out")
    };
    back
}

/// The word of a table at which two threads post these numbers.
fn least_of<R: Threads + AllocGlobal + Abort>(rt: &R, first: u64, second: u64) -> u64
    requires { (first < NONE) × (second < NONE) }
{
    let (table, mut seat) = LeastTable::new(rt.alloc(), 1).expect(rt, "memory");
    let other = table.split(&mut seat, 1);
    let (seat, other) = post_both(rt, &table, (seat, other), (first, second));
    let (table, mut seat) = kept_open(rt, table, seat);
    table.join(&mut seat, other);
    closed(rt, table, seat).get(0)
}

#[test]
fn two_threads(rt: HostRuntime) {
    assert!(rt; least_of(&rt, 5, 3) == 3);
    assert!(rt; least_of(&rt, 5, 5) == 5);
}

/// Posts of two seats at several words, and what is seen then.
fn post_and_look<R: Abort>(rt: &R, table: &LeastTable, seat: &mut LeastSeat, other: &mut LeastSeat)
    requires { (seat.old.table ≡ table.now.table) × (other.old.table ≡ table.now.table)
        × (table.now.count ≡ 3) }
    ensures { (seat.new.table ≡ seat.old.table) × (other.new.table ≡ other.old.table) }
{
    let answers = [
        table.post(seat, 0, 4),
        table.post(other, 2, 9),
        table.post(other, 0, 3),
        table.post(seat, 2, 1),
        table.post(seat, 2, 5),
    ];
    assert!(rt; answers == [NONE, NONE, 4, 9, 1]);
    let looks = [
        table.least(other, 0),
        table.least(other, 1),
        table.least(other, 2),
    ];
    assert!(rt; looks == [3, NONE, 1]);
}

/// Posts, looks and joins of one thread at several words.
#[test]
fn one_thread(rt: HostRuntime) {
    calls_replay();
    let (table, mut seat) = LeastTable::new(rt.alloc(), 3).expect(&rt, "memory");
    let mut other = table.split(&mut seat, 1);
    post_and_look(&rt, &table, &mut seat, &mut other);
    table.join(&mut seat, other);
    let words = closed(&rt, table, seat);
    assert!(rt; words.get(0) == 3 && words.get(1) == NONE && words.get(2) == 1);
}

/// A seat that is split off and dropped keeps a table of so many words open.
fn stays_open<R: AllocGlobal + Abort>(rt: &R, count: usize) {
    let (table, mut seat) = LeastTable::new(rt.alloc(), count).expect(rt, "memory");
    assert!(rt; seat.parts() == 1 << 32);
    drop(table.split(&mut seat, 7));
    let (table, seat) = kept_open(rt, table, seat);
    assert!(rt; seat.parts() == (1 << 32) - 7);
    kept_open(rt, table, seat);
}

#[test]
fn dropped_seat(rt: HostRuntime) {
    stays_open(&rt, 0);
    stays_open(&rt, 3);
}
