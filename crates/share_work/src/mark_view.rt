//! What one seat of a table of marks knows. No value of these types is made: they stand in the table's rule and in contracts.

use crate::views::View;
use std::collections::LinkedList;

/// What a seat owes within a mark: the number at each file from a position of the root's list on.
pub struct Debt {
    pub root: usize,
    pub number: u64,
    pub position: usize,
}

/// What a seat of a table of marks knows.
pub struct MarkView {
    /// What the seat knows as one of a table of least numbers.
    pub least: View,
    /// Its marks, each a root and a number.
    pub marks: LinkedList<(usize, u64)>,
    /// What it owes within a mark. Between calls it owes nothing.
    pub debt: Option<Debt>,
}
