//! Texts of names and strings (proto3 language specification, "Identifiers", "String Literals").

ghost use Rattle.std.specs.Prelude.{◌≡◌, ◌-◌, ◌^◌, ◌++◌, IfOk, OnOk, flat_map, length, min, string_bytes};
ghost use Rattle.std.specs.Option.{option_copied};
ghost use Rattle.proto_tree.specs.Text.{joined, part_text, dotted, spelled, simple_name};

use crate::literal::StringValue;
use crate::name::{FullName, NamePart, TypeName};
use proto_base::text::Text;
use std::alloc::{AllocError, Global};

/// The value of strings side by side, borrowed if one stands alone that is borrowed.
pub fn joined<'s>(alloc: Global, value: &StringValue<'s>) -> Result<Text<'s>, AllocError>
    ensures { IfOk result (λ text. text ≡ joined value.now) }
{
    if value.rest.as_slice().is_empty() {
        return value.first.value.try_clone(alloc);
    }
    let mut text = String::from_str(alloc, value.first.value.as_str())?;
    for literal in value.rest.as_slice() {
        text.push_str(literal.value.as_str())?;
    }
    Ok(Text::owned(text))
}

/// How many bytes a name has with its dots, up to the greatest number that there is.
pub fn dotted_len(name: &FullName) -> usize
    ensures { result ≡ min (length (dotted name.now)) (2 ^ 64 - 1) }
{
    let mut len = name.first.text.len();
    for part in name.rest.as_slice() {
        len = len.saturating_add(1).saturating_add(part.name.text.len());
    }
    len
}

/// Adds the parts of a name, each behind a dot.
fn put_parts(text: &mut String, parts: &[NamePart]) -> Result<(), AllocError>
    ensures { OnOk result (string_bytes text.new ≡ string_bytes text.old
        ++ flat_map part_text parts.now) }
{
    for part in parts {
        text.push_str(".")?;
        text.push_str(part.name.text)?;
    }
    Ok(())
}

/// A text that begins so, with a name behind it.
fn with_name(alloc: Global, start: &str, name: &FullName) -> Result<String, AllocError>
    ensures { IfOk result (λ text. string_bytes text ≡ start.now ++ dotted name.now) }
{
    let room = start.len().saturating_add(dotted_len(name));
    let mut text = String::with_capacity(alloc, room)?;
    text.push_str(start)?;
    text.push_str(name.first.text)?;
    put_parts(&mut text, name.rest.as_slice())?;
    Ok(text)
}

/// A name with dots between its parts, borrowed if it has one part.
pub fn dotted<'s>(alloc: Global, name: &FullName<'s>) -> Result<Text<'s>, AllocError>
    ensures { IfOk result (λ text. text ≡ dotted name.now) }
{
    let parts = name.rest.as_slice();
    if parts.is_empty() {
        return Ok(Text::borrowed(name.first.text));
    }
    Ok(Text::owned(with_name(alloc, "", name)?))
}

/// The name of a type with its dots, borrowed if it is one identifier.
pub fn spelled<'s>(alloc: Global, name: &TypeName<'s>) -> Result<Text<'s>, AllocError>
    ensures { IfOk result (λ text. text ≡ spelled name.now.dot name.now.name) }
{
    if name.dot.is_none() {
        return dotted(alloc, &name.name);
    }
    Ok(Text::owned(with_name(alloc, ".", &name.name)?))
}

/// The identifier that a name of one part is.
pub fn simple_name<'s>(name: &FullName<'s>) -> Option<&'s str>
    ensures { option_copied result ≡ simple_name name.now.rest name.now.first }
{
    if name.rest.as_slice().is_empty() {
        Some(name.first.text)
    } else {
        None
    }
}
