//! Numbers that are kept in 32 bits.

ghost use Rattle.std.specs.Prelude.{◌≡◌, ◌<◌, ◌≤◌, ◌^◌, IfOk, OnErr, OnOk};

use std::alloc::AllocError;

/// A position, or a number of bytes, entries or files, in 32 bits. There is no memory for what comes to 2^32 or more. No
/// files within the standard limits come to that.
pub fn narrow(number: usize) -> Result<u32, AllocError>
    ensures same { IfOk result (λ narrow. narrow ≡ number) }
    ensures fits { OnOk result (number < 2 ^ 32) }
    ensures refused { OnErr result (2 ^ 32 ≤ number) }
{
    match u32::try_from(number) {
        Ok(narrow) => Ok(narrow),
        Err(_) => Err(AllocError),
    }
}
