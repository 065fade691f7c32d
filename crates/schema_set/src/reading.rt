//! The bytes of a file.

ghost use Rattle.std.specs.Prelude.{◌≡◌, ◌+◌, ◌≤◌, ◌⊎◌, IfErr, IfOk, vec_len};
ghost use Rattle.schema_failure.specs.Faults.{IsOfDevice};
ghost use Rattle.schema_failure.specs.declared.failure.Device.TheVariants as devices;
ghost use Rattle.schema_failure.specs.declared.failure.Failure.TheVariants as failures;

use schema_failure::{Device, Failure};
use source_folder::first_bytes;
use std::alloc::AllocGlobal;
use std::fs::{File, OpenFile};
use std::io;
use std::rt::Files;

/// The first bytes of the file, the device or the pipe at a path, at most so many.
fn bytes_at<R: Files + AllocGlobal>(rt: &R, path: &str, most: u32) -> io::Result<Vec<u8>>
    ensures { IfOk result (λ bytes. vec_len bytes ≤ most) }
{
    let file = File::open(rt, path)?;
    let size = file.metadata()?.len();
    first_bytes(rt.alloc(), file, size, most)
}

/// The first bytes of a set that stands at a path, at most so many, or that it can't be read.
pub(crate) fn set_bytes<R: Files + AllocGlobal>(
    rt: &R,
    path: &str,
    most: u32,
) -> Result<Vec<u8>, Failure>
    ensures bounded { IfOk result (λ bytes. vec_len bytes ≤ most) }
    ensures failed { IfErr result (λ f. IsOfDevice devices.Set f ⊎ (f ≡ failures.NoMemory)) }
{
    match bytes_at(rt, path, most) {
        Ok(bytes) => Ok(bytes),
        Err(error) => Err(Failure::of_error(Device::Set, error)),
    }
}
