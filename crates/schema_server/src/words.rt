//! The words of the command line.

use std::alloc::AllocError;
use std::env::{self, Env};
use std::io;

/// More bytes than a word has on Linux (`MAX_ARG_STRLEN`).
const LONGEST_WORD: usize = 128 * 1024;

/// The words of this process. One that is no UTF-8 is `InvalidData`.
pub(crate) fn words_of(rt: &HostRuntime) -> io::Result<Vec<String>> {
    Ok(env::args(rt)?.collect(rt.alloc())?)
}

/// The first word that is no UTF-8.
fn first_other_word(rt: &HostRuntime) -> Result<Option<Vec<u8>>, AllocError> {
    let mut word = Vec::from_elem(rt.alloc(), 0, LONGEST_WORD)?;
    for position in 0..usize::MAX {
        let Ok(len) = rt.arg(position, &mut word) else {
            return Ok(None);
        };
        if std::str::from_utf8(&word[..len]).is_err() {
            word.truncate(len);
            return Ok(Some(word));
        }
    }
    Ok(None)
}

/// Tells which word is no UTF-8, as the parser of the words tells of others.
pub(crate) fn tell_other_word(rt: &HostRuntime) -> Result<(), AllocError> {
    if let Some(word) = first_other_word(rt)? {
        let word = word.escape_ascii();
        let _ = eprintln!(rt;
            "error: the word '{word}' is no UTF-8\n\nFor more information, try '--help'."
        );
    }
    Ok(())
}
