//! Why tokens are no file.

use proto_base::{Kind, Place};
use thiserror::Error;

/// Why tokens are no file: their first fault, or no memory for the tree.
#[derive(Debug, Drop, Error)]
pub enum ParseError {
    #[error("{1} at byte {0}")]
    At(Place, Kind),
    #[error("out of memory")]
    NoMemory,
}
