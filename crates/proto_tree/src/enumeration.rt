//! Enums (proto3 language specification, "Enum definition").

use crate::literal::SignedNumber;
use crate::name::Name;
use crate::option::{OptionStatement, Options};
use crate::reserved::Reserved;
use proto_base::Span;
use proto_base::boxed::Boxed;
use proto_base::row::Row;

/// A value of an enum.
#[derive(Drop)]
pub struct EnumValue<'s> {
    pub name: Name<'s>,
    pub equals: Span,
    pub number: SignedNumber,
    pub options: Option<Boxed<Options<'s>>>,
    pub semicolon: Span,
}

/// A statement of an enum.
#[derive(Drop)]
pub enum EnumItem<'s> {
    Value(Boxed<EnumValue<'s>>),
    Option(Boxed<OptionStatement<'s>>),
    Reserved(Boxed<Reserved<'s, SignedNumber>>),
    Empty(Span),
}

/// An enum.
#[derive(Drop)]
pub struct Enum<'s> {
    pub keyword: Span,
    pub name: Name<'s>,
    pub open_brace: Span,
    pub items: Row<EnumItem<'s>>,
    pub close_brace: Span,
}
