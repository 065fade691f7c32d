//! Messages (`DescriptorProto`, `OneofDescriptorProto`, `ReservedRange`).

ghost use Rattle.std.specs.Prelude.{◌≡◌, ◌++◌, OnOk};
ghost use Rattle.wire_bytes.specs.Descriptor.{message_desc_bytes, message_options_bytes, oneof_desc_bytes, options_field, range_bytes};

use crate::backward::{Backward, Payload};
use crate::descriptor::options::prepend_settings;
use proto_base::row::Row;
use proto_desc::message::{MessageDesc, ReservedRange};
use proto_desc::oneof::OneofDesc;
use proto_desc::options::OptionDescriptor;
use std::alloc::AllocError;

impl<'s> Payload for OneofDesc<'s> {
    ghost bytes = { oneof_desc_bytes };

    fn prepend_to(&self, out: &mut Backward) -> Result<(), AllocError> {
        out.prepend_field(1, &self.name)
    }
}

impl Payload for ReservedRange {
    ghost bytes = { range_bytes };

    fn prepend_to(&self, out: &mut Backward) -> Result<(), AllocError> {
        // The descriptor's end is the number behind the last reserved one.
        out.prepend_number(2, self.end.wrapping_add(1))?;
        out.prepend_number(1, self.start)
    }
}

/// Writes a message's `MessageOptions`, unless it is empty.
fn prepend_message_options(
    out: &mut Backward,
    options: &Row<OptionDescriptor>,
    is_map_entry: bool,
) -> Result<(), AllocError>
    ensures { OnOk result (out.new ≡ options_field 7
        (message_options_bytes options.now is_map_entry) ++ out.old) }
{
    let end = out.len();
    out.prepend_flag(7, is_map_entry)?;
    prepend_settings(out, options)?;
    if out.len() > end {
        out.prepend_head(7, end)?;
    }
    Ok(())
}

fn prepend_message(out: &mut Backward, message: &MessageDesc) -> Result<(), AllocError>
    ensures { OnOk result (out.new ≡ message_desc_bytes message.now ++ out.old) }
{
    out.prepend_fields(10, &message.reserved_names)?;
    out.prepend_fields(9, &message.reserved_ranges)?;
    out.prepend_fields(8, &message.oneofs)?;
    prepend_message_options(out, &message.options, message.is_map_entry)?;
    out.prepend_fields(4, &message.enums)?;
    for nested in message.nested.as_slice().iter().rev() {
        let end = out.len();
        prepend_message(out, nested)?;
        out.prepend_head(3, end)?;
    }
    out.prepend_fields(2, &message.fields)?;
    out.prepend_field(1, &message.name)
}

impl<'s> Payload for MessageDesc<'s> {
    ghost bytes = { message_desc_bytes };

    fn prepend_to(&self, out: &mut Backward) -> Result<(), AllocError> {
        prepend_message(out, self)
    }
}
