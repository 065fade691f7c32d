//! JSON names of fields (language guide, "JSON Mapping").

ghost use Rattle.std.specs.List.{list_any};
ghost use Rattle.std.specs.Prelude.{◌≡◌, ◌==◌, ◌++◌, IfOk, OnOk, string_bytes};
ghost use Rattle.proto_desc.specs.JsonNames.{json_name_of, raised};

use proto_base::boxed::Boxed;
use proto_base::text::Text;
use std::alloc::{AllocError, Global};
use std::marker::Model;

/// What a JSON name comes from.
#[derive(Drop)]
pub(crate) enum Origin<'s> {
    /// A text, as it is.
    Same(&'s str),
    /// The field's name, in which letters are to be raised.
    Raised(&'s str),
    /// The option `json_name`.
    Given(Boxed<Text<'s>>),
}

/// The JSON name of a field. One that is made of the field's name is made where it is asked for, and takes no memory until
/// then; one that an option sets is kept behind a pointer. Contracts see its bytes.
#[derive(Drop)]
pub struct JsonName<'s> {
    origin: Origin<'s>,
}

impl<'s> Model for JsonName<'s> {
    ghost use Rattle.std.specs.Prelude.{List, ℕ};
    ghost use Rattle.proto_desc.specs.JsonOrigins.{json_from};

    ghost Value = { List ℕ };

    ghost view = { λ json. json_from json.origin };
}

fn has_underscore(name: &str) -> bool
    ensures { result ≡ list_any (λ byte. byte == 95) name.now }
{
    name.as_bytes().contains(&b'_')
}

/// Adds a name without its underscores, where a lower-case ASCII letter directly behind one is raised; the character
/// `first` stands before the first.
pub fn push_raised(made: &mut String, name: &str, first: char) -> Result<(), AllocError>
    ensures { OnOk result (string_bytes made.new
        ≡ string_bytes made.old ++ raised first name.now) }
{
    let mut before = first;
    for letter in name.chars() {
        if letter != '_' {
            let upper = letter.to_ascii_uppercase();
            made.push(if before == '_' { upper } else { letter })?;
        }
        before = letter;
    }
    Ok(())
}

/// The JSON name that is made of a field's: underscores are dropped, and a lower-case ASCII letter directly behind one is
/// raised.
pub fn json_name(alloc: Global, name: &str) -> Result<String, AllocError>
    ensures { IfOk result (λ json. string_bytes json ≡ json_name_of name.now) }
{
    let mut json = String::with_capacity(alloc, name.len())?;
    push_raised(&mut json, name, ' ')?;
    Ok(json)
}

impl<'s> JsonName<'s> {
    /// The JSON name that is made of a field's.
    pub fn made(name: &'s str) -> JsonName<'s>
        ensures { result ≡ json_name_of name.now }
    {
        let origin = if has_underscore(name) {
            Origin::Raised(name)
        } else {
            Origin::Same(name)
        };
        JsonName { origin }
    }

    /// A JSON name that is this text.
    pub fn same(text: &'s str) -> JsonName<'s>
        ensures { result ≡ text.now }
    {
        JsonName {
            origin: Origin::Same(text),
        }
    }

    /// The JSON name that an option sets.
    pub fn given(alloc: Global, text: Text<'s>) -> Result<JsonName<'s>, AllocError>
        ensures { IfOk result (λ json. json ≡ text.entry) }
    {
        let boxed = Boxed::new(alloc, text)?;
        Ok(JsonName {
            origin: Origin::Given(boxed),
        })
    }

    /// The name. It takes memory only where letters are to be raised.
    pub fn text(&self, alloc: Global) -> Result<Text<'_>, AllocError>
        ensures { IfOk result (λ text. text ≡ self.now) }
    {
        match &self.origin {
            Origin::Same(text) => Ok(Text::borrowed(*text)),
            Origin::Raised(name) => Ok(Text::owned(json_name(alloc, name)?)),
            Origin::Given(text) => Ok(Text::borrowed(text.get().as_str())),
        }
    }
}
