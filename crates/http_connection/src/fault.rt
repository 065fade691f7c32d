//! Why a connection got no answer.

use std::alloc::AllocError;
use thiserror::Error;

/// Why a connection got no answer. It ends, and the next one is served.
#[derive(Clone, Copy, Debug, Error)]
pub enum ConnectionFault {
    /// The body of the request broke off.
    #[error("the body broke off")]
    Body,
    #[error("out of memory")]
    NoMemory,
}

impl From<AllocError> for ConnectionFault {
    fn from(_error: AllocError) -> ConnectionFault {
        ConnectionFault::NoMemory
    }
}
