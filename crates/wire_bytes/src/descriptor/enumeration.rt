//! Enums (`EnumDescriptorProto`, `EnumValueDescriptorProto`, `EnumReservedRange`).

ghost use Rattle.std.specs.Prelude.{◌≡◌, ◌++◌, OnOk};
ghost use Rattle.wire_bytes.specs.Descriptor.{enum_desc_bytes, enum_range_bytes, value_desc_bytes};

use crate::backward::{Backward, Payload};
use crate::descriptor::options::prepend_options;
use crate::descriptor::whole_number::low_bits;
use proto_desc::enumeration::{EnumDesc, EnumReservedRange, ValueDesc};
use std::alloc::AllocError;

impl<'s> Payload for ValueDesc<'s> {
    ghost bytes = { value_desc_bytes };

    fn prepend_to(&self, out: &mut Backward) -> Result<(), AllocError> {
        prepend_options(out, 3, &self.options)?;
        out.prepend_number(2, low_bits(self.number))?;
        out.prepend_field(1, &self.name)
    }
}

impl Payload for EnumReservedRange {
    ghost bytes = { enum_range_bytes };

    fn prepend_to(&self, out: &mut Backward) -> Result<(), AllocError> {
        out.prepend_number(2, low_bits(self.end))?;
        out.prepend_number(1, low_bits(self.start))
    }
}

impl<'s> Payload for EnumDesc<'s> {
    ghost bytes = { enum_desc_bytes };

    fn prepend_to(&self, out: &mut Backward) -> Result<(), AllocError> {
        out.prepend_fields(5, &self.reserved_names)?;
        out.prepend_fields(4, &self.reserved_ranges)?;
        prepend_options(out, 3, &self.options)?;
        out.prepend_fields(2, &self.values)?;
        out.prepend_field(1, &self.name)
    }
}
