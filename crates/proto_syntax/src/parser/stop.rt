//! Why the parser stops.

ghost use Rattle.std.specs.Prelude.{◌≡◌};
ghost use Rattle.proto_syntax.specs.declared.parser.stop.Stop.TheVariants.{NoMemory};

use std::alloc::{AllocError, AllocFailed};

/// Why the parser stopped, at the first token that it left.
#[derive(Drop)]
pub enum Stop {
    NoMemory,
    Unexpected,
    TooDeep,
}

impl From<AllocError> for Stop {
    ghost from_gives = { λ _ e. e ≡ NoMemory };

    fn from(_error: AllocError) -> Stop {
        Stop::NoMemory
    }
}

impl<T: Drop> From<AllocFailed<T>> for Stop {
    ghost from_gives = { λ _ e. e ≡ NoMemory };

    fn from(_error: AllocFailed<T>) -> Stop {
        Stop::NoMemory
    }
}
