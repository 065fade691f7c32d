//! The first bytes of what is read.

ghost use Rattle.std.specs.Prelude.{◌≡◌, ◌≤◌, IfOk, IfSome, take, vec_len};

use std::alloc::Global;
use std::io::{self, Read};

/// The first bytes of what is read, at most so many. There may be about as many as the size.
pub fn first_bytes<I: Read + Drop>(
    alloc: Global,
    input: I,
    size: u64,
    most: u32,
) -> io::Result<Vec<u8>>
    ensures bounded { IfOk result (λ bytes. vec_len bytes ≤ most) }
    ensures prefix { IfOk result (λ bytes. IfSome (I.remaining input)
        (λ all. bytes.items ≡ take most all)) }
{
    // A byte more than the size, so that the end is met without more memory.
    let room = size.min(u64::from(most)) as usize + 1;
    let mut bytes = Vec::with_capacity(alloc, room)?;
    input.take(u64::from(most)).read_to_end(&mut bytes)?;
    // It has no more, but the contract of a read to the end tells no length.
    bytes.truncate(most as usize);
    Ok(bytes)
}
