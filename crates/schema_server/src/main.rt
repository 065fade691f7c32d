//! A schema server for Protocol Buffers.
#![tactic(auto)]

mod words;

use crate::words::{tell_other_word, words_of};
use counted_io::Counted;
use schema_program::run;
use std::io::{self, ErrorKind};
use std::process::ExitCode;

/// Ends a run for whose words there is no memory.
fn without_memory(rt: &HostRuntime) -> ExitCode {
    let _ = eprintln!(rt; "out of memory");
    ExitCode::from(4)
}

/// Ends a run whose words could not be read.
fn without_words(rt: &HostRuntime, error: &io::Error) -> ExitCode {
    if error.kind() != ErrorKind::InvalidData || tell_other_word(rt).is_err() {
        return without_memory(rt);
    }
    ExitCode::from(2)
}

fn main(rt: HostRuntime) -> ExitCode {
    let words = match words_of(&rt) {
        Ok(words) => words,
        Err(error) => return without_words(&rt, &error),
    };
    let Ok(lent) = words
        .iter()
        .map(String::as_str)
        .collect::<Vec<&str>>(rt.alloc())
    else {
        return without_memory(&rt);
    };
    let mut input = Counted::new(rt.stdin());
    let mut output = Counted::new(rt.stdout());
    ExitCode::from(run(&rt, &lent, &mut input, &mut output, &mut rt.stderr()))
}
