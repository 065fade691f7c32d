//! A table of marks: each posts its number at all the files that its root reaches, but where that is done already.
//!
//! Each post is one `fetch_min` on its file's word. A mark whose root holds no more than its number posts nothing else: then
//! each file that the root reaches holds as little already, or another seat is about to post it there.

ghost use Rattle.std.specs.Prelude.{None, Some, ◌==◌, ◌≡◌, ℕ, ◌+◌, ◌-◌, ◌<◌, ◌≤◌, ◌^◌, List, [], ◌∷◌, ◌++◌, ◌↔◌, length, slice_get, slice_index, nat_lt, if◌then◌else◌, IfOk, IfErr, OnOk, IsErr};
ghost use Rattle.share_work.specs.Posts.{least_at};
ghost use Rattle.share_work.specs.Views.{call, known, posts_of};
ghost use Rattle.share_work.specs.Rule.{IsLegal, IsPosted};
ghost use Rattle.share_work.specs.declared.views.Call.{Call};
ghost use Rattle.share_work.specs.Marks.{at_each, marked_posts, mark_seat_value, mark_whole, mark_left, mark_right, mark_both, with_mark};
ghost use Rattle.share_work.specs.Steps.{make_debt, debt_at, with_root, with_calls};

mod rule;

use crate::least::{Least, words_at_close};
use crate::least_table::{ALL_PARTS, NONE};
use crate::mark_view::MarkView;
use crate::reach::Reach;
use atomic_table::{Seat, Table};
use rule::{MarkCounts, MarkCut, MarkGiven, MarkRule, MarkUnite, Paid, Pays, RootPosts};
use std::alloc::{AllocError, Global};
use std::marker::{Brand, Model};

/// A word for each file of a reach, which holds the least number of all marks whose roots reach the file, or `NONE`. Contracts
/// see which table it is, and its reach.
#[derive(Drop)]
pub struct MarkTable<'r, R: Reach> {
    table: Table<(), MarkView, R, MarkRule<R>, Global>,
    reach: &'r R,
    spare: Vec<u64>,
}

impl<'r, R: Reach> Model for MarkTable<'r, R> {
    ghost use Rattle.std.specs.Prelude.{◌≡◌, ◌+◌, vec_len};
    ghost use Rattle.share_work.specs.Marks.{MarkTableValue, mark_table_code};

    ghost Value = { MarkTableValue R };

    ghost coded = { mark_table_code R.code };

    ghost view = { λ t. record { table = t.table.shared.table_id; reach = t.table.shared.key } };

    ghost invariant = { λ t. (t.table.shared.table_id.words ≡ R.files t.table.shared.key + 1)
        × (t.table.shared.table_id.slots ≡ 0) × (vec_len t.spare ≡ R.files t.table.shared.key)
        × (t.reach.now ≡ t.table.shared.key) };
}

/// The right to mark. Contracts see its table and its view: its parts, its calls, what it was told and its marks.
#[derive(Drop)]
pub struct MarkSeat {
    seat: Seat<(), MarkView>,
    parts: u64,
}

impl Model for MarkSeat {
    ghost use Rattle.std.specs.Prelude.{◌≡◌, ◌<◌, ◌≤◌, ◌^◌, [], None};
    ghost use Rattle.share_work.specs.Marks.{MarkSeatValue, mark_seat_value};

    ghost Value = { MarkSeatValue };

    ghost view = { λ s. mark_seat_value s.seat.table_id s.seat.me.0 };

    ghost invariant = { λ s. (s.seat.me.1 ≡ []) × (s.parts ≡ s.seat.me.0.least.parts)
        × (0 < s.parts) × (s.parts ≤ 2 ^ 32) × (s.seat.me.0.debt ≡ None) };
}

impl<'r, R: Reach> MarkTable<'r, R> {
    /// A table with a word for each file, all `NONE`, and its first seat, which has all 2^32 parts.
    pub fn new(alloc: Global, reach: &'r R) -> Result<(MarkTable<'r, R>, MarkSeat), AllocError>
    where
        R: Sync,
        ensures { IfOk result (λ r. (r.0.reach ≡ reach.entry.now)
            × (r.1 ≡ mark_seat_value r.0.table mark_whole)) }
    {
        let count = reach.count();
        let spare = Vec::from_elem(alloc, NONE, count)?;
        let mut words = Vec::with_capacity(alloc, count.saturating_add(1))?;
        words.push(0)?;
        words.extend_from_slice(spare.as_slice())?;
        let (table, seat) = Table::of_words(alloc, words.as_slice(), reach)?;
        let parts = ALL_PARTS;
        let table = MarkTable {
            table,
            reach,
            spare,
        };
        Ok((table, MarkSeat { seat, parts }))
    }

    /// Posts a mark's number at its root.
    fn post_root(&self, seat: &mut Seat<(), MarkView>, root: usize, number: u64) -> u64
        requires seat { (seat.old.table_id ≡ self.now.table) × (0 < seat.old.me.0.least.parts)
            × (seat.old.me.0.debt ≡ None) }
        requires mark { (root < R.files self.now.reach) × (number < NONE) }
        ensures known { result ≤ known root seat.old.me.0.least }
        ensures seat { (seat.new.table_id ≡ seat.old.table_id)
            × (seat.new.me ≡ (with_root root result number seat.old.me.0, seat.old.me.1)) }
    {
        self.table
            .shared
            .fetch_min::<RootPosts>(seat, root + 1, number)
    }

    /// Posts the number at the debt's position.
    fn pay_one<G: Paid>(
        &self,
        seat: &mut Seat<(), MarkView>,
        root: usize,
        number: u64,
        position: usize,
        file: usize,
    )
        requires seat { (seat.old.table_id ≡ self.now.table) × (0 < seat.old.me.0.least.parts)
            × (root < R.files self.now.reach) }
        requires debt { (seat.old.me.0.debt ≡ Some (make_debt root number position))
            × (slice_get (R.list self.now.reach root) position ≡ Some file)
            × (G.last ≡ (position + 1 == length (R.list self.now.reach root))) }
        ensures { (seat.new.table_id ≡ seat.old.table_id)
            × ((found : ℕ) × (seat.new.me ≡ (
              with_calls seat.old.me.0 (call file found number ∷ [])
                  (debt_at root number (position + 1) (R.list self.now.reach root)),
              seat.old.me.1,
            ))) }
    {
        self.table
            .shared
            .fetch_min::<Pays<G>>(seat, file + 1, number);
    }

    /// Posts the number at each file that the root reaches.
    fn pay(&self, seat: &mut Seat<(), MarkView>, root: usize, number: u64)
        requires seat { (seat.old.table_id ≡ self.now.table) × (0 < seat.old.me.0.least.parts)
            × (root < R.files self.now.reach) }
        requires debt { seat.old.me.0.debt ≡ Some (make_debt root number 0) }
        ensures { (later : List Call) × (posts_of later
            ≡ at_each number (R.list self.now.reach root))
            × (seat.new.me ≡ (with_calls seat.old.me.0 later None, seat.old.me.1))
            × (seat.new.table_id ≡ seat.old.table_id) }
    {
        let mut k = 0;
        while let Some(file) = self.reach.reached(root, k) {
            self.pay_one::<Brand>(seat, root, number, k, file);
            k += 1;
        }
    }

    /// Posts a number at the root, and answers what its word held. Where that was more than the number, posts it at each file
    /// that the root reaches too, in the order of its list.
    pub fn mark(&self, seat: &mut MarkSeat, root: usize, number: u64) -> u64
        requires seat { seat.old.table ≡ self.now.table }
        requires mark { (root < R.files self.now.reach) × (number < NONE) }
        ensures known { result ≤ known root seat.old.view.least }
        ensures calls { (later : List Call)
            × (posts_of later ≡ (if nat_lt number result then
            at_each number (R.list self.now.reach root) else []))
            × (seat.new ≡ mark_seat_value seat.old.table
            (with_mark seat.old.view (root, number) (call root result number ∷ later))) }
    {
        let found = self.post_root(&mut seat.seat, root, number);
        if number < found {
            self.pay(&mut seat.seat, root, number);
        }
        found
    }

    fn split_by<G: MarkGiven>(&self, seat: &mut MarkSeat, parts: u64) -> MarkSeat
        requires { (seat.old.table ≡ self.now.table) × (parts ≡ G.parts) × (0 < parts)
            × (parts < seat.old.view.least.parts) }
        ensures old { seat.new ≡ mark_seat_value seat.old.table (mark_left parts seat.old.view) }
        ensures new { result ≡ mark_seat_value seat.old.table (mark_right parts seat.old.view) }
    {
        let other = self.table.shared.split_seat::<MarkCut<G>>(&mut seat.seat);
        seat.parts -= parts;
        MarkSeat { seat: other, parts }
    }

    /// Moves parts to a new seat, which has no calls and no marks, and is told what this one knows.
    pub fn split(&self, seat: &mut MarkSeat, parts: u64) -> MarkSeat
        requires { (seat.old.table ≡ self.now.table) × (0 < parts)
            × (parts < seat.old.view.least.parts) }
        ensures old { seat.new ≡ mark_seat_value seat.old.table (mark_left parts seat.old.view) }
        ensures new { result ≡ mark_seat_value seat.old.table (mark_right parts seat.old.view) }
    {
        self.split_by::<Brand>(seat, parts)
    }

    /// Adds a seat's parts, its calls, what it was told and its marks to another.
    pub fn join(&self, seat: &mut MarkSeat, other: MarkSeat)
        requires { (seat.old.table ≡ self.now.table) × (other.table ≡ self.now.table) }
        ensures { seat.new ≡ mark_seat_value seat.old.table (mark_both seat.old.view other.view) }
    {
        let MarkSeat { seat: with, parts } = other;
        self.table
            .shared
            .join_seat::<MarkUnite>(&mut seat.seat, with);
        let sum = seat.parts + parts;
        if sum > ALL_PARTS {
            // No run comes here: by the rule no seat has more parts than there are.
            self.table.shared.load::<MarkCounts>(&mut seat.seat, 0);
            unreachable!()
        }
        seat.parts = sum;
    }

    /// The least number of all marks at each file that their roots reach, for the seat that has all parts. Where it has fewer,
    /// since a seat that was split wasn't joined, the table and the seat come back as they were.
    pub fn close(self, seat: MarkSeat) -> Result<Least, (MarkTable<'r, R>, MarkSeat)>
        requires { seat.table ≡ self.table }
        ensures refused { IsErr result ↔ (seat.view.least.parts < 2 ^ 32) }
        ensures back { IfErr result (λ r. (r.0 ≡ self.entry) × (r.1 ≡ seat)) }
        ensures count { IfOk result (λ l. length l ≡ R.files self.entry.reach) }
        ensures least { IfOk result (λ l. (w : ℕ) → w < R.files self.entry.reach
            → slice_index l w ≡ least_at w (marked_posts (R.list self.entry.reach)
            seat.view.marks)) }
        ensures posted { IfOk result (λ l. (w : ℕ) → w < R.files self.entry.reach
            → slice_index l w ≡ least_at w (posts_of seat.view.least.calls)) }
        ensures legal { OnOk result (IsLegal seat.view.least.calls) }
        ensures told { OnOk result (IsPosted seat.view.least.told seat.view.least.calls) }
    {
        if seat.parts < ALL_PARTS {
            return Err((self, seat));
        }
        let MarkTable {
            table,
            reach: _,
            spare,
        } = self;
        let MarkSeat { seat, parts: _ } = seat;
        Ok(words_at_close(table, spare, seat))
    }
}

impl MarkSeat {
    /// How many of the 2^32 parts the seat has: at least one.
    pub fn parts(&self) -> u64
        ensures parts { result ≡ self.now.view.least.parts }
        ensures some { 0 < result }
    {
        self.parts
    }
}
