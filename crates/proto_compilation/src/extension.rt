//! Extensions of messages.

use proto_links::FileId;

/// An extension (`descriptor.proto`, `FieldDescriptorProto` with `extendee`).
#[derive(Drop)]
pub struct Extension {
    /// The full name of the message that it extends, without a dot in front.
    pub message: String,
    /// Its number in that message.
    pub number: u32,
    /// The position of the file that declares it.
    pub file: FileId,
}
