//! Oneofs (proto3 language specification, "Oneof and oneof field").

use crate::field::{Declarator, FieldType};
use crate::name::Name;
use crate::option::OptionStatement;
use proto_base::Span;
use proto_base::boxed::Boxed;
use proto_base::row::Row;

/// A field of a oneof: a member.
#[derive(Drop)]
pub struct OneofField<'s> {
    pub field_type: FieldType<'s>,
    pub declarator: Declarator<'s>,
}

/// A statement of a oneof.
#[derive(Drop)]
pub enum OneofItem<'s> {
    Field(Boxed<OneofField<'s>>),
    Option(Boxed<OptionStatement<'s>>),
    Empty(Span),
}

/// A oneof of a message.
#[derive(Drop)]
pub struct Oneof<'s> {
    pub keyword: Span,
    pub name: Name<'s>,
    pub open_brace: Span,
    pub items: Row<OneofItem<'s>>,
    pub close_brace: Span,
}
