//! Files and their statements (proto3 language specification, "Proto File").

use crate::enumeration::Enum;
use crate::literal::StringValue;
use crate::message::Message;
use crate::name::FullName;
use crate::option::OptionStatement;
use crate::service::Service;
use proto_base::Span;
use proto_base::boxed::Boxed;
use proto_base::row::Row;

/// The `syntax` statement.
#[derive(Drop)]
pub struct Syntax<'s> {
    pub keyword: Span,
    pub equals: Span,
    pub version: StringValue<'s>,
    pub semicolon: Span,
}

/// An `import` statement.
#[derive(Drop)]
pub struct Import<'s> {
    pub keyword: Span,
    pub public: Option<Span>,
    pub path: StringValue<'s>,
    pub semicolon: Span,
}

/// A `package` statement.
#[derive(Drop)]
pub struct Package<'s> {
    pub keyword: Span,
    pub name: FullName<'s>,
    pub semicolon: Span,
}

/// A statement of a file.
#[derive(Drop)]
pub enum Statement<'s> {
    Import(Boxed<Import<'s>>),
    Package(Boxed<Package<'s>>),
    Option(Boxed<OptionStatement<'s>>),
    Message(Boxed<Message<'s>>),
    Enum(Boxed<Enum<'s>>),
    Service(Boxed<Service<'s>>),
    Empty(Span),
}

/// A file.
#[derive(Drop)]
pub struct FileTree<'s> {
    pub syntax: Syntax<'s>,
    pub statements: Row<Statement<'s>>,
}
