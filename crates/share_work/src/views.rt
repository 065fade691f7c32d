//! What one seat of a table knows. No value of these types is made: they stand in the table's rule and in contracts.

use std::collections::LinkedList;

/// One post at a word.
pub struct Call {
    /// The word, numbered from 0.
    pub word: usize,
    /// What the word held before.
    pub found: u64,
    /// The number that was posted.
    pub number: u64,
}

/// What a seat of a table of least numbers knows.
pub struct View {
    /// How many of the 2^32 parts the seat has.
    pub parts: u64,
    /// Its posts, in their order.
    pub calls: LinkedList<Call>,
    /// The numbers that it read at words, or was told by a split or a join.
    pub told: LinkedList<(usize, u64)>,
}
