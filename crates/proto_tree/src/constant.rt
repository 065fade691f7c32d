//! The values of options (proto3 language specification, "Constant").

use crate::literal::{NumberLiteral, StringValue};
use crate::name::FullName;
use proto_base::Span;

/// The sign of a number.
#[derive(Clone, Copy)]
pub enum Sign {
    Minus(Span),
    Plus(Span),
}

/// An integer with an optional sign.
#[derive(Clone, Copy)]
pub struct ConstantNumber {
    pub sign: Option<Sign>,
    pub number: NumberLiteral,
}

/// The value of an option.
#[derive(Drop)]
pub enum Constant<'s> {
    Name(FullName<'s>),
    Number(ConstantNumber),
    String(StringValue<'s>),
}
