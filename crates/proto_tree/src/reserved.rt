//! Reserved numbers and names (proto3 language specification, "Reserved").

ghost use Rattle.std.specs.Prelude.{◌≡◌};
ghost use Rattle.proto_tree.specs.Ranges.{last_number, number_of_bound};

use crate::list::Separated;
use crate::literal::StringValue;
use proto_base::Span;

/// The last number of a range: a number, or `max`.
#[derive(Clone, Copy)]
pub enum UpperBound<N> {
    Number(N),
    Max(Span),
}

impl<N: Copy> UpperBound<N> {
    /// The number, unless it is `max`.
    pub fn number(&self) -> Option<N>
        ensures { result ≡ number_of_bound self.now }
    {
        match *self {
            UpperBound::Number(number) => Some(number),
            UpperBound::Max(_) => None,
        }
    }
}

/// The end of a range behind `to`.
#[derive(Clone, Copy)]
pub struct RangeEnd<N> {
    pub to: Span,
    pub bound: UpperBound<N>,
}

/// Numbers from the first to the last, or one number.
#[derive(Clone, Copy)]
pub struct Range<N> {
    pub start: N,
    pub end: Option<RangeEnd<N>>,
}

impl<N: Copy> Range<N> {
    /// The last number, unless it is `max`. A range without an end ends at its start.
    pub fn last(&self) -> Option<N>
        ensures { result ≡ last_number self.now.start self.now.end }
    {
        match &self.end {
            None => Some(self.start),
            Some(end) => end.bound.number(),
        }
    }
}

/// What a `reserved` statement lists.
#[derive(Drop)]
pub enum ReservedItems<'s, N> {
    Ranges(Separated<Range<N>>),
    Names(Separated<StringValue<'s>>),
}

/// A `reserved` statement, of numbers without a sign in a message and with one in an enum.
#[derive(Drop)]
pub struct Reserved<'s, N> {
    pub keyword: Span,
    pub items: ReservedItems<'s, N>,
    pub semicolon: Span,
}
