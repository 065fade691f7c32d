//! Options (proto3 language specification, "Option").

use crate::constant::Constant;
use crate::list::Separated;
use crate::name::FullName;
use proto_base::Span;

/// The name of an option and its value.
#[derive(Drop)]
pub struct Setting<'s> {
    pub name: FullName<'s>,
    pub equals: Span,
    pub value: Constant<'s>,
}

/// The options of a field or an enum value, in brackets.
#[derive(Drop)]
pub struct Options<'s> {
    pub open_bracket: Span,
    pub settings: Separated<Setting<'s>>,
    pub close_bracket: Span,
}

/// An `option` statement.
#[derive(Drop)]
pub struct OptionStatement<'s> {
    pub keyword: Span,
    pub setting: Setting<'s>,
    pub semicolon: Span,
}
