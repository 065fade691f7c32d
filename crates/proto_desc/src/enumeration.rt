//! Enums (`EnumDescriptorProto`, `EnumValueDescriptorProto`).

use crate::identifier::Identifier;
use crate::options::OptionDescriptor;
use crate::whole_number::WholeNumber;
use proto_base::Place;
use proto_base::row::Row;
use proto_base::text::Text;

/// A value of an enum.
#[derive(Drop)]
pub struct ValueDesc<'s> {
    pub name: Identifier<'s>,
    pub place: Place,
    pub number: WholeNumber,
    pub options: Row<OptionDescriptor<'s>>,
}

/// Reserved numbers of an enum, from `start` to `end`; both are reserved.
#[derive(Clone, Copy, PartialEq, Eq)]
pub struct EnumReservedRange {
    pub start: WholeNumber,
    pub end: WholeNumber,
}

/// An enum.
#[derive(Drop)]
pub struct EnumDesc<'s> {
    pub name: Text<'s>,
    pub place: Place,
    pub values: Row<ValueDesc<'s>>,
    pub options: Row<OptionDescriptor<'s>>,
    pub reserved_ranges: Row<EnumReservedRange>,
    pub reserved_names: Row<Text<'s>>,
}
