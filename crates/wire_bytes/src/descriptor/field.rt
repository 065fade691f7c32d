//! Fields (`FieldDescriptorProto`).

ghost use Rattle.std.specs.Prelude.{◌≡◌, ◌++◌, OnOk};
ghost use Rattle.wire_bytes.specs.Descriptor.{field_desc_bytes, index_field, flag_field, label_number, scalar_number, text_field, type_name, type_number};

use crate::backward::{Backward, Payload};
use crate::descriptor::options::prepend_options;
use crate::descriptor::type_name::reference_number;
use proto_base::scalar_type::ScalarType;
use proto_desc::field::{FieldDesc, FieldKind, FieldLabel};
use std::alloc::AllocError;

fn label_number(label: FieldLabel) -> u64
    ensures { result ≡ label_number label }
{
    match label {
        FieldLabel::Optional => 1,
        FieldLabel::Repeated => 3,
    }
}

fn scalar_number(scalar: ScalarType) -> u64
    ensures { result ≡ scalar_number scalar }
{
    match scalar {
        ScalarType::Double => 1,
        ScalarType::Float => 2,
        ScalarType::Int64 => 3,
        ScalarType::Uint64 => 4,
        ScalarType::Int32 => 5,
        ScalarType::Fixed64 => 6,
        ScalarType::Fixed32 => 7,
        ScalarType::Bool => 8,
        ScalarType::String => 9,
        ScalarType::Bytes => 12,
        ScalarType::Uint32 => 13,
        ScalarType::Sfixed32 => 15,
        ScalarType::Sfixed64 => 16,
        ScalarType::Sint32 => 17,
        ScalarType::Sint64 => 18,
    }
}

fn type_number(field_type: &FieldKind) -> u64
    ensures { result ≡ type_number field_type.now }
{
    match field_type {
        FieldKind::Scalar(scalar) => scalar_number(*scalar),
        FieldKind::Named(reference) => reference_number(reference),
    }
}

fn prepend_type_name(out: &mut Backward, field_type: &FieldKind) -> Result<(), AllocError>
    ensures { OnOk result (out.new ≡ text_field 6 (type_name field_type.now) ++ out.old) }
{
    match field_type {
        FieldKind::Scalar(_) => Ok(()),
        FieldKind::Named(reference) => out.prepend_field(6, reference),
    }
}

fn prepend_oneof_index(out: &mut Backward, index: Option<u32>) -> Result<(), AllocError>
    ensures { OnOk result (out.new ≡ index_field 9 index ++ out.old) }
{
    match index {
        Some(index) => out.prepend_number(9, u64::from(index)),
        None => Ok(()),
    }
}

impl<'s> Payload for FieldDesc<'s> {
    ghost bytes = { field_desc_bytes };

    fn prepend_to(&self, out: &mut Backward) -> Result<(), AllocError> {
        out.prepend_flag(17, self.proto3_optional)?;
        out.prepend_field(10, &self.json_name)?;
        prepend_oneof_index(out, self.oneof_index)?;
        prepend_options(out, 8, &self.options)?;
        prepend_type_name(out, &self.field_type)?;
        out.prepend_number(5, type_number(&self.field_type))?;
        out.prepend_number(4, label_number(self.label))?;
        out.prepend_number(3, self.number)?;
        out.prepend_field(1, &self.name)
    }
}
