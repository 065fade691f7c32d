//! Fields (proto3 language specification, "Normal Field").

use crate::literal::NumberLiteral;
use crate::name::{Name, TypeName};
use crate::option::Options;
use proto_base::Span;
use proto_base::boxed::Boxed;
use proto_base::scalar_type::ScalarType;

/// The label of a field.
#[derive(Clone, Copy)]
pub enum Label {
    Optional(Span),
    Repeated(Span),
}

/// The type of a field or of a map's values.
#[derive(Drop)]
pub enum FieldType<'s> {
    Scalar(ScalarType, Span),
    Named(TypeName<'s>),
}

/// What stands behind the type of a field: its name, its number and its options.
#[derive(Drop)]
pub struct Declarator<'s> {
    pub name: Name<'s>,
    pub equals: Span,
    pub number: NumberLiteral,
    pub options: Option<Boxed<Options<'s>>>,
    pub semicolon: Span,
}

/// A field of a message.
#[derive(Drop)]
pub struct Field<'s> {
    pub label: Option<Label>,
    pub field_type: FieldType<'s>,
    pub declarator: Declarator<'s>,
}
