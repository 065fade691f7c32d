//! Why a service over connections ended.

ghost use Rattle.std.specs.Prelude.{◌≡◌};
ghost use Rattle.counted_io.specs.Memory.{IsUnlessNoMemory};
ghost use Rattle.http_connection.specs.declared.serve_fault.ServeFault.TheVariants as faults;

use counted_io::is_no_memory;
use std::alloc::AllocError;
use std::io;
use thiserror::Error;

/// Why the service ended.
#[derive(Debug, Drop, PartialEq, Eq, Error)]
pub enum ServeFault {
    /// The listener took no connection, or the runtime failed.
    #[error("device: accept")]
    AcceptFault,
    #[error("out of memory")]
    NoMemory,
}

impl From<AllocError> for ServeFault {
    ghost from_gives = { λ _ fault. fault ≡ faults.NoMemory };

    fn from(_error: AllocError) -> ServeFault {
        ServeFault::NoMemory
    }
}

impl From<io::Error> for ServeFault {
    ghost from_gives = { λ error fault. IsUnlessNoMemory error faults.NoMemory faults.AcceptFault fault };

    fn from(error: io::Error) -> ServeFault {
        if is_no_memory(&error) {
            ServeFault::NoMemory
        } else {
            ServeFault::AcceptFault
        }
    }
}
