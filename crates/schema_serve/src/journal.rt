//! The journal of a service, as lines of text.

use http_connection::{End, Ended, Journal, Progress};
use std::alloc::Global;
use std::fmt;
use std::io::Write;

/// What is said of a connection that has ended: the line on its request, if it was answered, and why no answer was taken.
#[derive(Clone, Copy)]
struct Said<'a>(&'a Ended);

/// The line on a request that was answered, and one on its connection where this took no answer.
fn write_answered<W: fmt::Write>(
    line: &Option<String>,
    end: &End,
    f: &mut fmt::Formatter<W>,
) -> fmt::Result {
    if let Some(line) = line {
        writeln!(f, "{line}")?;
    }
    match end {
        End::Closed => Ok(()),
        _ => writeln!(f, "connection ended before its answer was taken: {end}"),
    }
}

impl fmt::Display for Said<'_> {
    fn fmt<W: fmt::Write>(&self, f: &mut fmt::Formatter<W>) -> fmt::Result {
        let end = &self.0.end;
        match &self.0.progress {
            Progress::NotAsked => writeln!(f, "connection ended without a request: {end}"),
            Progress::Asked => writeln!(f, "connection ended without an answer: {end}"),
            Progress::Failed(fault) => writeln!(f, "connection ended without an answer: {fault}"),
            Progress::Answered(line) => write_answered(line, end, f),
        }
    }
}

/// Writes what is said of each connection, by one call for each. Without a writer nothing is kept.
#[derive(Drop)]
pub(crate) struct Lines<'a, E> {
    alloc: Global,
    writer: Option<&'a mut E>,
}

impl<'a, E> Lines<'a, E> {
    pub(crate) fn new(alloc: Global, writer: Option<&'a mut E>) -> Lines<'a, E> {
        Lines { alloc, writer }
    }
}

impl<E: Write> Journal for Lines<'_, E> {
    fn is_kept(&self) -> bool {
        self.writer.is_some()
    }

    fn note(&mut self, ended: &Ended) {
        let Some(writer) = &mut self.writer else {
            return;
        };
        let said = Said(ended);
        let Ok(lines) = format!(in self.alloc; "{said}") else {
            return;
        };
        let _ = writer.write_all(lines.as_bytes());
    }
}
