//! Services (`ServiceDescriptorProto`, `MethodDescriptorProto`).

ghost use Rattle.std.specs.Prelude.{◌≡◌, ◌++◌, OnOk};
ghost use Rattle.wire_bytes.specs.Descriptor.{method_desc_bytes, service_desc_bytes};

use crate::backward::{Backward, Payload};
use crate::descriptor::options::prepend_options;
use proto_desc::service::{MethodDesc, ServiceDesc};
use std::alloc::AllocError;

impl<'s> Payload for MethodDesc<'s> {
    ghost bytes = { method_desc_bytes };

    fn prepend_to(&self, out: &mut Backward) -> Result<(), AllocError> {
        out.prepend_flag(6, self.server_streaming)?;
        out.prepend_flag(5, self.client_streaming)?;
        prepend_options(out, 4, &self.options)?;
        out.prepend_field(3, &self.output)?;
        out.prepend_field(2, &self.input)?;
        out.prepend_field(1, &self.name)
    }
}

impl<'s> Payload for ServiceDesc<'s> {
    ghost bytes = { service_desc_bytes };

    fn prepend_to(&self, out: &mut Backward) -> Result<(), AllocError> {
        prepend_options(out, 3, &self.options)?;
        out.prepend_fields(2, &self.methods)?;
        out.prepend_field(1, &self.name)
    }
}
