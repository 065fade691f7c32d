//! Errors for want of memory.

ghost use Rattle.std.specs.Prelude.{◌↔◌, IsTrue};
ghost use Rattle.counted_io.specs.Memory.{LacksMemory};

use std::io;

/// Whether an error says that the allocator had no memory. Where the system had none, the device failed: the error has the
/// system's number.
pub fn is_no_memory(error: &io::Error) -> bool
    ensures { IsTrue result ↔ LacksMemory error.now }
{
    error.kind() == io::ErrorKind::OutOfMemory && error.raw_os_error().is_none()
}
