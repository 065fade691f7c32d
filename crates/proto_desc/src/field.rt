//! Fields (`FieldDescriptorProto`).

use crate::identifier::Identifier;
use crate::json_name::JsonName;
use crate::options::OptionDescriptor;
use crate::type_name::TypeReference;
use proto_base::Place;
use proto_base::row::Row;
use proto_base::scalar_type::ScalarType;

/// The label: a field without one in the source is optional, a map field is repeated.
#[derive(Clone, Copy, PartialEq, Eq)]
pub enum FieldLabel {
    Optional,
    Repeated,
}

/// The type of a field: a scalar type, or a message or an enum by its name.
#[derive(Drop)]
pub enum FieldKind<'s> {
    Scalar(ScalarType),
    Named(TypeReference<'s>),
}

/// A field, a map field or a member of a oneof. What is small stands side by side, since a set has many fields.
#[derive(Drop)]
pub struct FieldDesc<'s> {
    pub name: Identifier<'s>,
    pub place: Place,
    pub label: FieldLabel,
    pub proto3_optional: bool,
    /// The position of its oneof in the message, real or made.
    pub oneof_index: Option<u32>,
    pub number: u64,
    pub field_type: FieldKind<'s>,
    /// The option `json_name`, or else the name that is made of the field's.
    pub json_name: JsonName<'s>,
    pub options: Row<OptionDescriptor<'s>>,
}
