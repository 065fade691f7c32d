//! Rounds of a call.

use crate::answers::Answer;
use crate::calls::Call;
use std::alloc::AllocGlobal;
use std::io::{Eprint, Print, Read};
use std::rt::Files;
use std::thread::Threads;

/// More than the allocations of any call.
const LAST: u32 = 10_000;

/// Reads the input, which begins what may be refused, and ends it. At the end it gives a byte where something was
/// refused.
fn has_byte(console: &HostRuntime) -> bool {
    matches!(console.stdin().read(&mut [0_u8]), Ok(1))
}

/// Tells what is wrong with the answers of a call that is made twice, of which the first may have been refused an
/// allocation.
fn wrong(first: Answer, is_refused: bool, again: Answer) -> Option<&'static str> {
    let is_right = match first {
        Answer::Wanted => true,
        Answer::NoMemory => is_refused,
        Answer::Other => false,
    };
    if !is_right {
        return Some("another answer");
    }
    match again {
        Answer::Wanted => None,
        _ => Some("another answer when made again"),
    }
}

/// Makes a call twice, and tells whether the first was refused an allocation, or what is wrong.
fn round<R>(rt: &R, console: &HostRuntime, call: Call<'_>) -> Result<bool, &'static str>
where
    R: Threads + Files + AllocGlobal + Sync,
{
    has_byte(console);
    let first = call.make(rt);
    let is_refused = has_byte(console);
    let again = call.make(rt);
    match wrong(first, is_refused, again) {
        Some(what) => Err(what),
        None => Ok(is_refused),
    }
}

/// Tells that something is wrong, which is false.
pub(crate) fn told(console: &HostRuntime, name: &str, what: &str) -> bool {
    let _ = eprintln!(console; "{name}: {what}");
    false
}

/// Makes a call in rounds until nothing is refused, and prints how many rounds met a refusal. Tells whether all is
/// right.
pub(crate) fn in_rounds<R>(rt: &R, console: &HostRuntime, name: &str, call: Call<'_>) -> bool
where
    R: Threads + Files + AllocGlobal + Sync,
{
    for refused in 0..LAST {
        match round(rt, console, call) {
            Ok(true) => {}
            Ok(false) => return println!(console; "{name}: {refused} refused").is_ok(),
            Err(what) => return told(console, name, what),
        }
    }
    told(console, name, "no end")
}
