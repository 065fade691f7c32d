//! Why a service over connections ended, and what the system said.

ghost use Rattle.std.specs.Prelude.{◌≡◌, None, Some};
ghost use Rattle.counted_io.specs.Memory.{IsUnlessNoMemory};
ghost use Rattle.http_connection.specs.declared.serve_fault.ServeFault.TheVariants as faults;

use crate::serve_fault::ServeFault;
use std::alloc::AllocError;
use std::io;

/// Why a service ended, and what the system said, where that is known.
#[derive(Debug, Drop)]
pub struct ServeTrouble {
    pub fault: ServeFault,
    pub error: Option<io::Error>,
}

/// A fault of which no more is known.
impl From<ServeFault> for ServeTrouble {
    ghost from_gives = { λ fault trouble. trouble ≡ record { fault = fault; error = None } };

    fn from(fault: ServeFault) -> ServeTrouble {
        ServeTrouble { fault, error: None }
    }
}

impl From<AllocError> for ServeTrouble {
    ghost from_gives = { λ _ trouble. trouble ≡ record { fault = faults.NoMemory; error = None } };

    fn from(_error: AllocError) -> ServeTrouble {
        ServeTrouble::from(ServeFault::NoMemory)
    }
}

impl From<io::Error> for ServeTrouble {
    ghost from_gives = { λ error trouble. IsUnlessNoMemory error faults.NoMemory faults.AcceptFault trouble.fault
        × (trouble.error ≡ Some error) };

    fn from(error: io::Error) -> ServeTrouble {
        ServeTrouble {
            fault: ServeFault::from(error),
            error: Some(error),
        }
    }
}

impl From<ServeTrouble> for ServeFault {
    ghost from_gives = { λ trouble fault. fault ≡ trouble.fault };

    fn from(trouble: ServeTrouble) -> ServeFault {
        trouble.fault
    }
}
