//! The scope before a name that is read from its end on.

use crate::entries::Entries;

/// The scope before a name.
#[derive(Clone, Copy)]
pub(crate) enum ScopeBefore<'e> {
    /// The name stands in no scope.
    Nothing,
    /// The scope of this full name.
    Text(&'e [u8]),
    /// The scope that an entry names, by its position.
    Entry(&'e Entries, usize),
}
