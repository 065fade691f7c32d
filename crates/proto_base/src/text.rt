//! Texts that borrow a source, or own what the source doesn't hold.

ghost use Rattle.std.specs.Cow.{cow_str_bytes};
ghost use Rattle.std.specs.Prelude.{◌≡◌, ◌==◌, IfOk, string_bytes};

use std::alloc::{AllocError, Global};
use std::borrow::CowStr;
use std::marker::Model;

/// A text, borrowed or owned. Contracts see it as its UTF-8 bytes, whichever it is.
#[derive(Drop)]
pub struct Text<'s> {
    text: CowStr<'s>,
}

impl<'s> Model for Text<'s> {
    ghost use Rattle.std.specs.Prelude.{List, ℕ};
    ghost use Rattle.std.specs.Cow.{cow_str_bytes};

    ghost Value = { List ℕ };

    ghost view = { λ text. cow_str_bytes text.text };
}

impl<'s> Text<'s> {
    /// A text that borrows its bytes.
    pub fn borrowed(text: &'s str) -> Text<'s>
        ensures { result ≡ text.now }
    {
        Text {
            text: CowStr::Borrowed(text),
        }
    }

    /// A text that owns its bytes.
    pub fn owned(text: String) -> Text<'s>
        ensures { result ≡ string_bytes text }
    {
        Text {
            text: CowStr::Owned(text),
        }
    }

    /// The text, borrowed from here.
    pub fn as_str(&self) -> &str
        ensures { result.now ≡ self.now }
    {
        self.text.as_str()
    }

    /// The text as std's type, borrowed or owned as it is here.
    pub fn into_cow(self) -> CowStr<'s>
        ensures { cow_str_bytes result ≡ self.entry }
    {
        self.text
    }

    /// The same text once more. One that borrows its bytes is copied without memory and borrows them too.
    pub fn try_clone(&self, alloc: Global) -> Result<Text<'s>, AllocError>
        ensures { IfOk result (λ text. text ≡ self.now) }
    {
        match &self.text {
            CowStr::Borrowed(text) => Ok(Text::borrowed(text)),
            CowStr::Owned(text) => Ok(Text::owned(String::from_str(alloc, text.as_str())?)),
        }
    }
}
