//! A table of words that threads share, each the least number that was posted there.
//!
//! A post is one `fetch_min` on its word and a read is one load. No lock stands round the table, and no call waits.

ghost use Rattle.std.specs.Prelude.{◌≡◌, ℕ, ◌-◌, ◌<◌, ◌≤◌, ◌^◌, ◌↔◌, length, slice_index, IfOk, IfErr, OnOk, IsErr};
ghost use Rattle.share_work.specs.Posts.{least_at};
ghost use Rattle.share_work.specs.Views.{seat_value, call, whole, known, posts_of, with_call, with_told, left_of, right_of, both_of};
ghost use Rattle.share_work.specs.Rule.{IsLegal, IsPosted};

mod rule;

use crate::least::{Least, words_at_close};
use crate::views::View;
use atomic_table::{Seat, Table};
use rule::{Counts, Cut, Given, LeastRule, Looks, Posts, Unite};
use std::alloc::{AllocError, Global};
use std::marker::{Brand, Model};

/// What a word holds before its first post.
pub const NONE: u64 = u64::MAX;

/// The parts of all seats of a table.
pub(crate) const ALL_PARTS: u64 = 1 << 32;

/// Words that each hold the least number posted there, or `NONE`. Contracts see which table it is, and how many words it has.
#[derive(Drop)]
pub struct LeastTable {
    table: Table<(), View, usize, LeastRule, Global>,
    spare: Vec<u64>,
}

impl Model for LeastTable {
    ghost use Rattle.std.specs.Prelude.{◌≡◌, ◌+◌, vec_len};
    ghost use Rattle.share_work.specs.Views.{TableValue};

    ghost Value = { TableValue };

    ghost view = { λ t. record { table = t.table.shared.table_id; count = t.table.shared.key } };

    ghost invariant = { λ t. (t.table.shared.table_id.words ≡ t.table.shared.key + 1)
        × (t.table.shared.table_id.slots ≡ 0) × (vec_len t.spare ≡ t.table.shared.key) };
}

/// The right to post and to read. Contracts see its table and its view: its parts, its calls and what it was told.
#[derive(Drop)]
pub struct LeastSeat {
    seat: Seat<(), View>,
    parts: u64,
}

impl Model for LeastSeat {
    ghost use Rattle.std.specs.Prelude.{◌≡◌, ◌<◌, ◌≤◌, ◌^◌, []};
    ghost use Rattle.share_work.specs.Views.{SeatValue, seat_value};

    ghost Value = { SeatValue };

    ghost view = { λ s. seat_value s.seat.table_id s.seat.me.0 };

    ghost invariant = { λ s. (s.seat.me.1 ≡ []) × (s.parts ≡ s.seat.me.0.parts)
        × (0 < s.parts) × (s.parts ≤ 2 ^ 32) };
}

impl LeastTable {
    /// A table of `count` words that hold `NONE`, and its first seat, which has all 2^32 parts.
    pub fn new(alloc: Global, count: usize) -> Result<(LeastTable, LeastSeat), AllocError>
        ensures { IfOk result (λ r. (r.0.count ≡ count) × (r.1 ≡ seat_value r.0.table whole)) }
    {
        let spare = Vec::from_elem(alloc, NONE, count)?;
        let mut words = Vec::with_capacity(alloc, count.saturating_add(1))?;
        words.push(0)?;
        words.extend_from_slice(spare.as_slice())?;
        let (table, seat) = Table::of_words(alloc, words.as_slice(), &count)?;
        let parts = ALL_PARTS;
        Ok((LeastTable { table, spare }, LeastSeat { seat, parts }))
    }

    /// Posts a number at a word, and answers what the word held: at most all that the seat knew of there.
    pub fn post(&self, seat: &mut LeastSeat, word: usize, number: u64) -> u64
        requires { (seat.old.table ≡ self.now.table) × (word < self.now.count) × (number < NONE) }
        ensures known { result ≤ known word seat.old.view }
        ensures call { seat.new ≡ seat_value seat.old.table
            (with_call seat.old.view (call word result number)) }
    {
        self.table
            .shared
            .fetch_min::<Posts>(&mut seat.seat, word + 1, number)
    }

    /// What a word holds, `NONE` before its first post: at most all that the seat knew of there.
    pub fn least(&self, seat: &mut LeastSeat, word: usize) -> u64
        requires { (seat.old.table ≡ self.now.table) × (word < self.now.count) }
        ensures known { result ≤ known word seat.old.view }
        ensures told { seat.new ≡ seat_value seat.old.table (with_told seat.old.view word result) }
    {
        self.table.shared.load::<Looks>(&mut seat.seat, word + 1)
    }

    fn split_by<G: Given>(&self, seat: &mut LeastSeat, parts: u64) -> LeastSeat
        requires { (seat.old.table ≡ self.now.table) × (parts ≡ G.parts) × (0 < parts)
            × (parts < seat.old.view.parts) }
        ensures old { seat.new ≡ seat_value seat.old.table (left_of parts seat.old.view) }
        ensures new { result ≡ seat_value seat.old.table (right_of parts seat.old.view) }
    {
        let other = self.table.shared.split_seat::<Cut<G>>(&mut seat.seat);
        seat.parts -= parts;
        LeastSeat { seat: other, parts }
    }

    /// Moves parts to a new seat, which has no calls and is told what this one knows.
    pub fn split(&self, seat: &mut LeastSeat, parts: u64) -> LeastSeat
        requires { (seat.old.table ≡ self.now.table) × (0 < parts) × (parts < seat.old.view.parts) }
        ensures old { seat.new ≡ seat_value seat.old.table (left_of parts seat.old.view) }
        ensures new { result ≡ seat_value seat.old.table (right_of parts seat.old.view) }
    {
        self.split_by::<Brand>(seat, parts)
    }

    /// Adds a seat's parts, its calls and what it was told to another.
    pub fn join(&self, seat: &mut LeastSeat, other: LeastSeat)
        requires { (seat.old.table ≡ self.now.table) × (other.table ≡ self.now.table) }
        ensures { seat.new ≡ seat_value seat.old.table (both_of seat.old.view other.view) }
    {
        let LeastSeat { seat: with, parts } = other;
        self.table.shared.join_seat::<Unite>(&mut seat.seat, with);
        let sum = seat.parts + parts;
        if sum > ALL_PARTS {
            // No run comes here: by the rule no seat has more parts than there are.
            self.table.shared.load::<Counts>(&mut seat.seat, 0);
            unreachable!()
        }
        seat.parts = sum;
    }

    /// The least numbers, for the seat that has all parts. Where it has fewer, since a seat that was split wasn't joined,
    /// the table and the seat come back as they were.
    pub fn close(self, seat: LeastSeat) -> Result<Least, (LeastTable, LeastSeat)>
        requires { seat.table ≡ self.table }
        ensures refused { IsErr result ↔ (seat.view.parts < 2 ^ 32) }
        ensures back { IfErr result (λ r. (r.0 ≡ self) × (r.1 ≡ seat)) }
        ensures count { IfOk result (λ l. length l ≡ self.count) }
        ensures least { IfOk result (λ l. (w : ℕ) → w < self.count
            → slice_index l w ≡ least_at w (posts_of seat.view.calls)) }
        ensures legal { OnOk result (IsLegal seat.view.calls) }
        ensures told { OnOk result (IsPosted seat.view.told seat.view.calls) }
    {
        if seat.parts < ALL_PARTS {
            return Err((self, seat));
        }
        let LeastTable { table, spare } = self;
        let LeastSeat { seat, parts: _ } = seat;
        Ok(words_at_close(table, spare, seat))
    }
}

impl LeastSeat {
    /// How many of the 2^32 parts the seat has: at least one.
    pub fn parts(&self) -> u64
        ensures parts { result ≡ self.now.view.parts }
        ensures some { 0 < result }
    {
        self.parts
    }
}
