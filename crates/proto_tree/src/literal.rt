//! Integers and strings (proto3 language specification, "Integer Literals" and "String Literals").

use proto_base::Span;
use proto_base::row::Row;
use proto_base::text::Text;

/// An integer literal.
#[derive(Clone, Copy)]
pub struct NumberLiteral {
    pub value: u64,
    pub span: Span,
}

/// An integer with an optional minus.
#[derive(Clone, Copy)]
pub struct SignedNumber {
    pub minus: Option<Span>,
    pub number: NumberLiteral,
}

/// One string literal, by its value.
#[derive(Drop)]
pub struct StringLiteral<'s> {
    pub value: Text<'s>,
    pub span: Span,
}

/// One string literal or more, side by side: their values joined are the value.
#[derive(Drop)]
pub struct StringValue<'s> {
    pub first: StringLiteral<'s>,
    pub rest: Row<StringLiteral<'s>>,
}
