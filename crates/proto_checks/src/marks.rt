//! Numbers, texts and ranges of numbers, each with the place at which it is at fault.

ghost use Rattle.std.specs.Prelude.{◌≡◌};

use proto_base::Place;
use proto_base::text::Text;
use std::marker::Model;

/// A number, with the place at which it is at fault. Those of an enum are counted from -2^64 on, so that all are numbers
/// without a sign.
#[derive(Clone, Copy, PartialEq, Eq)]
pub struct MarkedNumber {
    pub number: u128,
    pub place: Place,
}

/// The numbers from `start` to `end`, none where `end` is less, with the place at which they are at fault.
#[derive(Clone, Copy, PartialEq, Eq)]
pub struct MarkedRange {
    pub start: u128,
    pub end: u128,
    pub place: Place,
}

/// A text, with the place at which it is at fault.
#[derive(Drop)]
pub struct MarkedText<'a> {
    pub text: &'a str,
    pub place: Place,
}

impl<'a> Model for MarkedText<'a> {
    ghost use Rattle.proto_checks.specs.Marks.{Marked};

    ghost Value = { Marked };

    ghost view = { λ a. record { text = a.text.now; place = a.place } };
}

/// A text that is borrowed or owned, with the place at which it is at fault.
#[derive(Drop)]
pub(crate) struct PlacedText<'s> {
    pub(crate) text: Text<'s>,
    pub(crate) place: Place,
}

impl<'s> Model for PlacedText<'s> {
    ghost use Rattle.proto_checks.specs.Marks.{Marked};

    ghost Value = { Marked };

    ghost view = { λ a. record { text = a.text; place = a.place } };
}

/// What has a text that no later one may equal.
pub(crate) trait HasText {
    ghost use Rattle.proto_checks.specs.Marks.{Marked};

    /// Its text, and the place at which it is at fault.
    ghost mark: { Self → Marked };

    /// Its text and that place, without memory.
    fn marked_text(&self) -> MarkedText<'_>
        ensures { result ≡ mark self.now };
}

impl<'s> HasText for PlacedText<'s> {
    ghost mark = { λ text. text };

    fn marked_text(&self) -> MarkedText<'_> {
        MarkedText {
            text: self.text.as_str(),
            place: self.place,
        }
    }
}
