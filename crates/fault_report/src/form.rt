//! In which form faults are told.

/// How each fault is written.
#[derive(Clone, Copy, PartialEq, Eq)]
pub enum Form {
    /// For people: its line, what it is about, the row of the text with carets, and what its kind means.
    Text,
    /// As compilers write errors, one line for each: `PATH:LINE:COLUMN: error: MESSAGE [KIND]`.
    Gcc,
    /// As GitHub's workflows take annotations, one line for each.
    Github,
    /// One JSON object in a line for each.
    Json,
}
