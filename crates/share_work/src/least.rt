//! The least number of each word, when all posts are made.

ghost use Rattle.atomic_table.specs.Table.{Final, Seen};
ghost use Rattle.std.specs.Prelude.{◌≡◌, ℕ, List, vec_len, ◌+◌, ◌<◌, length, slice_index};

use atomic_table::{Seat, Table, TableRule};
use std::alloc::Global;
use std::marker::Model;

/// The least number that was posted at each word of a closed table, or `NONE`. Contracts see the list of them.
#[derive(Drop)]
pub struct Least {
    words: Vec<u64>,
}

impl Model for Least {
    ghost use Rattle.std.specs.Prelude.{List, ℕ};

    ghost Value = { List ℕ };

    ghost view = { λ l. l.words.items };
}

impl Least {
    /// The least number that was posted at a word, or `NONE`.
    pub fn get(&self, word: usize) -> u64
        requires { word < length self.now }
        ensures { result ≡ slice_index self.now word }
    {
        self.words[word]
    }
}

/// Closes a table, and copies its words but the first, the seat word, to `spare`, so that no memory is needed.
pub(crate) fn words_at_close<V, K, P: TableRule<(), V, K>>(
    table: Table<(), V, K, P, Global>,
    mut spare: Vec<u64>,
    seat: Seat<(), V>,
) -> Least
    requires { (seat.table_id ≡ table.shared.table_id)
        × (table.shared.table_id.words ≡ vec_len spare + 1) × (table.shared.table_id.slots ≡ 0) }
    ensures count { length result ≡ vec_len spare }
    ensures words { (ws : List ℕ) × ((xs : List (Unit {0}))
        × (Final (Seen (P.holds table.shared.key) seat.id seat.me.0) ws xs
        × ((w : ℕ) → w < vec_len spare → slice_index result w ≡ slice_index ws (w + 1)))) }
{
    let closed = table.close_with(seat);
    for i in 0..spare.len() {
        spare[i] = closed.word(i + 1);
    }
    closed.free();
    Least { words: spare }
}
