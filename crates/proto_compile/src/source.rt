//! Sources.

/// A source: its name, by which others import it, and its bytes. The order is that of the fields.
#[derive(Clone, Copy, PartialEq, Eq, PartialOrd, Ord)]
pub struct Source<'s> {
    pub name: &'s str,
    pub text: &'s [u8],
}
