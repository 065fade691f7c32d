//! Why bytes are not read.

ghost use Rattle.std.specs.Prelude.{◌≡◌, Err, IfOk, List, map, ℕ};
ghost use Rattle.proto_sets.specs.declared.error.ReadError.TheVariants as errors;
ghost use Rattle.wire_format.specs.ProgramFields.{field_of};
ghost use Rattle.wire_format.specs.Reading.{IsRow, Value};

use std::alloc::{AllocError, AllocFailed, Global};
use thiserror::Error;
use wire_format::{Field, WireError, read_fields};

/// Why bytes are not read.
#[derive(Debug, Drop, Error)]
pub enum ReadError {
    #[error("malformed descriptor")]
    Malformed,
    #[error("out of memory")]
    NoMemory,
}

impl From<AllocError> for ReadError {
    ghost from_gives = { λ _ e. e ≡ errors.NoMemory };

    fn from(_error: AllocError) -> ReadError {
        ReadError::NoMemory
    }
}

impl<T: Drop> From<AllocFailed<T>> for ReadError {
    ghost from_gives = { λ _ e. e ≡ errors.NoMemory };

    fn from(_error: AllocFailed<T>) -> ReadError {
        ReadError::NoMemory
    }
}

/// The fields of a message, in their order.
pub(crate) fn fields_in<'b>(alloc: Global, bytes: &'b [u8]) -> Result<Vec<Field<'b>>, ReadError>
    ensures found { IfOk result (λ fields. IsRow bytes.now (map field_of fields.items)) }
    ensures malformed { result ≡ Err errors.Malformed → (fields : List (ℕ × Value))
        → IsRow bytes.now fields → ⊥ }
{
    match read_fields(alloc, bytes) {
        Ok(fields) => Ok(fields),
        Err(WireError::Malformed) => Err(ReadError::Malformed),
        Err(WireError::NoMemory) => Err(ReadError::NoMemory),
    }
}
