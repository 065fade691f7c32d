//! How many bytes a descriptor has at least: those of the names of types in it. Nothing else grows a descriptor far beyond
//! its source, which spells a type by a short name where the descriptor has the full one.

ghost use Rattle.std.specs.Prelude.{◌≤◌, flat_map, length};
ghost use Rattle.wire_bytes.specs.Descriptor.{file_desc_bytes, message_desc_bytes};

use crate::backward::Payload;
use crate::descriptor::type_name::reference_len;
use proto_base::row::Row;
use proto_desc::field::{FieldDesc, FieldKind};
use proto_desc::file::FileDesc;
use proto_desc::message::MessageDesc;
use proto_desc::service::{MethodDesc, ServiceDesc};

/// What names types.
trait LeastLen: Payload {
    /// How many bytes the names of types in it have, or `usize::MAX` if there are more.
    fn least_len(&self) -> usize
        ensures { result ≤ length (Self.bytes self.now) };
}

impl<'s> LeastLen for FieldDesc<'s> {
    fn least_len(&self) -> usize {
        match &self.field_type {
            FieldKind::Scalar(_) => 0,
            FieldKind::Named(reference) => reference_len(reference),
        }
    }
}

impl<'s> LeastLen for MethodDesc<'s> {
    fn least_len(&self) -> usize {
        reference_len(&self.input).saturating_add(reference_len(&self.output))
    }
}

impl<'s> LeastLen for ServiceDesc<'s> {
    fn least_len(&self) -> usize {
        least_row_len(&self.methods)
    }
}

impl<'s> LeastLen for MessageDesc<'s> {
    fn least_len(&self) -> usize {
        least_message_len(self)
    }
}

/// What all of a row have together.
fn least_row_len<P: LeastLen>(payloads: &Row<P>) -> usize
    ensures { result ≤ length (flat_map P.bytes payloads.now) }
{
    let mut least: usize = 0;
    for payload in payloads.iter() {
        least = least.saturating_add(payload.least_len());
    }
    least
}

/// What a message has, with the messages in it at whatever depth.
fn least_message_len(message: &MessageDesc) -> usize
    ensures { result ≤ length (message_desc_bytes message.now) }
{
    let mut least = least_row_len(&message.fields);
    for nested in message.nested.as_slice() {
        least = least.saturating_add(least_message_len(nested));
    }
    least
}

/// What the messages and services of a file have.
pub(super) fn least_file_len(file: &FileDesc) -> usize
    ensures { result ≤ length (file_desc_bytes file.now) }
{
    least_row_len(&file.messages).saturating_add(least_row_len(&file.services))
}
