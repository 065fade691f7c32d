//! Messages (proto3 language specification, "Message definition").

use crate::enumeration::Enum;
use crate::field::Field;
use crate::literal::NumberLiteral;
use crate::map_field::MapField;
use crate::name::Name;
use crate::oneof::Oneof;
use crate::option::OptionStatement;
use crate::reserved::Reserved;
use proto_base::Span;
use proto_base::boxed::Boxed;
use proto_base::row::Row;

/// A statement of a message.
#[derive(Drop)]
#[cycle(tree)]
pub enum MessageItem<'s> {
    Field(Boxed<Field<'s>>),
    Map(Boxed<MapField<'s>>),
    Oneof(Boxed<Oneof<'s>>),
    Option(Boxed<OptionStatement<'s>>),
    Message(Boxed<Message<'s>>),
    Enum(Boxed<Enum<'s>>),
    Reserved(Boxed<Reserved<'s, NumberLiteral>>),
    Empty(Span),
}

/// A message.
#[derive(Drop)]
#[cycle(tree)]
pub struct Message<'s> {
    pub keyword: Span,
    pub name: Name<'s>,
    pub open_brace: Span,
    pub items: Row<MessageItem<'s>>,
    pub close_brace: Span,
}
