//! What a call answers.

use std::alloc::AllocError;

/// Whether a call answered what is wanted, that it had no memory, or something else.
#[derive(Clone, Copy)]
pub(crate) enum Answer {
    Wanted,
    NoMemory,
    Other,
}

/// The answer of a call that had memory.
pub(crate) fn answer_of(is_wanted: bool) -> Answer {
    if is_wanted {
        Answer::Wanted
    } else {
        Answer::Other
    }
}

/// The answer of a call that failed.
pub(crate) fn failed(has_no_memory: bool) -> Answer {
    if has_no_memory {
        Answer::NoMemory
    } else {
        Answer::Other
    }
}

/// The answer of a call that makes a text.
pub(crate) fn text_answer(made: &Result<String, AllocError>, wanted: &str) -> Answer {
    match made {
        Ok(text) => answer_of(text.as_str() == wanted),
        Err(AllocError) => Answer::NoMemory,
    }
}

/// The answer of a call that makes bytes.
pub(crate) fn bytes_answer(made: &Result<Vec<u8>, AllocError>, wanted: &[u8]) -> Answer {
    match made {
        Ok(bytes) => answer_of(bytes.as_slice() == wanted),
        Err(AllocError) => Answer::NoMemory,
    }
}
