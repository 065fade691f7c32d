//! Extensions of messages.

/// An extension: the message that it extends, as the set spells its name, its number there, and the file that has it.
#[derive(Clone, Copy)]
pub(crate) struct Extension<'b> {
    pub(crate) extendee: &'b [u8],
    pub(crate) number: u32,
    pub(crate) file: u32,
}
