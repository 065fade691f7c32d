//! Services (proto3 language specification, "Service definition").

use crate::name::{Name, TypeName};
use crate::option::OptionStatement;
use proto_base::Span;
use proto_base::boxed::Boxed;
use proto_base::row::Row;

/// The type of a method's input or output, in parentheses.
#[derive(Drop)]
pub struct RpcType<'s> {
    pub open_paren: Span,
    pub stream: Option<Span>,
    pub name: TypeName<'s>,
    pub close_paren: Span,
}

/// A statement of a method.
#[derive(Drop)]
pub enum RpcItem<'s> {
    Option(Boxed<OptionStatement<'s>>),
    Empty(Span),
}

/// The statements of a method, in braces.
#[derive(Drop)]
pub struct RpcBlock<'s> {
    pub open_brace: Span,
    pub items: Row<RpcItem<'s>>,
    pub close_brace: Span,
}

/// What ends a method: a semicolon or a block.
#[derive(Drop)]
pub enum RpcBody<'s> {
    Semicolon(Span),
    Block(RpcBlock<'s>),
}

/// A method of a service.
#[derive(Drop)]
pub struct Rpc<'s> {
    pub keyword: Span,
    pub name: Name<'s>,
    pub input: RpcType<'s>,
    pub returns: Span,
    pub output: RpcType<'s>,
    pub body: RpcBody<'s>,
}

/// A statement of a service.
#[derive(Drop)]
pub enum ServiceItem<'s> {
    Rpc(Boxed<Rpc<'s>>),
    Option(Boxed<OptionStatement<'s>>),
    Empty(Span),
}

/// A service.
#[derive(Drop)]
pub struct Service<'s> {
    pub keyword: Span,
    pub name: Name<'s>,
    pub open_brace: Span,
    pub items: Row<ServiceItem<'s>>,
    pub close_brace: Span,
}
