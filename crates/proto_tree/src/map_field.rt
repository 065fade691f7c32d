//! Map fields (proto3 language specification, "Map field").

use crate::field::{Declarator, FieldType};
use proto_base::Span;
use proto_base::scalar_type::KeyType;

/// The types of a map's keys and values, in angle brackets.
#[derive(Drop)]
pub struct MapType<'s> {
    pub open_angle: Span,
    pub key: KeyType,
    pub key_span: Span,
    pub comma: Span,
    pub value: FieldType<'s>,
    pub close_angle: Span,
}

/// A map field of a message.
#[derive(Drop)]
pub struct MapField<'s> {
    pub keyword: Span,
    pub map_type: MapType<'s>,
    pub declarator: Declarator<'s>,
}
