//! Worked examples: what is told of sources, of files and of lists of files.

mod base;
mod files;
mod lists;
mod made_names;
mod tokens;

use std::process::Abort;

/// A line's first field, and what comes behind it.
fn field<R: Abort>(rt: &R, line: &'static str) -> (&'static str, &'static str) {
    line.split_once('|').expect(rt, "a field")
}

/// Compares what is found for a row with what is wanted.
fn expect(rt: &impl Abort, row: &str, found: &str, wanted: &str) {
    assert!(rt; found == wanted, "{row}: {found}");
}
