//! Names (proto3 language specification, "Identifiers").

use proto_base::Span;
use proto_base::row::Row;
use std::marker::Model;

/// An identifier.
#[derive(Drop)]
pub struct Name<'s> {
    pub text: &'s str,
    pub span: Span,
}

impl<'s> Model for Name<'s> {
    ghost use Rattle.proto_tree.specs.Name.{Identifier};

    ghost Value = { Identifier };

    ghost view = { λ a. record { text = a.text.now; span = a.span } };
}

/// A dot and the name behind it.
#[derive(Drop)]
pub struct NamePart<'s> {
    pub dot: Span,
    pub name: Name<'s>,
}

/// A name with dots: `fullIdent`.
#[derive(Drop)]
pub struct FullName<'s> {
    pub first: Name<'s>,
    pub rest: Row<NamePart<'s>>,
}

/// The name of a message or an enum, which may begin with a dot: `messageType` and `enumType`.
#[derive(Drop)]
pub struct TypeName<'s> {
    pub dot: Option<Span>,
    pub name: FullName<'s>,
}
