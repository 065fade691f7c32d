//! Messages (`DescriptorProto`).

use crate::enumeration::EnumDesc;
use crate::field::FieldDesc;
use crate::oneof::OneofDesc;
use crate::options::OptionDescriptor;
use proto_base::Place;
use proto_base::row::Row;
use proto_base::text::Text;

/// Reserved field numbers, from `start` to `end`; both are reserved, as in the source.
#[derive(Clone, Copy, PartialEq, Eq)]
pub struct ReservedRange {
    pub start: u64,
    pub end: u64,
}

/// A message, or the entry that a map field makes, which stands at the field's name.
#[derive(Drop)]
pub struct MessageDesc<'s> {
    pub name: Text<'s>,
    pub place: Place,
    pub is_map_entry: bool,
    pub fields: Row<FieldDesc<'s>>,
    pub nested: Row<MessageDesc<'s>>,
    pub enums: Row<EnumDesc<'s>>,
    pub oneofs: Row<OneofDesc<'s>>,
    pub reserved_ranges: Row<ReservedRange>,
    pub reserved_names: Row<Text<'s>>,
    pub options: Row<OptionDescriptor<'s>>,
}
