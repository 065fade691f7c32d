//! The extensions of a set by message and number.

ghost use Rattle.std.specs.Prelude.{◌≡◌, ◌++◌, ◌↔◌, ◌≤◌, IfOk, IsTrue, IsUtf8, List, MatchOption, codes, length, map, ℕ};
ghost use Rattle.proto_compilation.specs.Extensions.{DeclaredExtension};
ghost use Rattle.proto_compilation.specs.Parts.{declared_extension};
ghost use Rattle.proto_sets.specs.Extensions.{AreTabled, HaveOneNumber, IsDeclared};
ghost use Rattle.proto_sets.specs.SaysSteps.{extension_of};
ghost use Rattle.proto_sets.specs.TableSteps.{AreInOrder, AreNamed, IsRepeated, IsTableOf, named_by, names_of};

use crate::extension::Extension;
use proto_compilation::Extension as TabledExtension;
use std::alloc::{AllocError, Global};

/// An extension of a message that is spelled in full. The order is that of the fields.
#[derive(Clone, Copy, PartialEq, Eq, PartialOrd, Ord)]
pub(crate) struct NamedExtension<'b> {
    pub(crate) message: &'b str,
    pub(crate) number: u32,
    pub(crate) file: u32,
}

/// The full name of a message, where it is spelled with a dot in front.
fn full_name(extendee: &[u8]) -> Option<&str>
    ensures { MatchOption result
        ((name : List ℕ) → extendee.now ≡ codes "." ++ name → ¬ IsUtf8 name)
        (λ name. (extendee.now ≡ codes "." ++ name.now) × IsUtf8 name.now) }
{
    match extendee {
        [b'.', name @ ..] => std::str::from_utf8(name).ok(),
        _ => None,
    }
}

/// An extension, where its message is spelled in full.
fn named_extension<'b>(extension: &Extension<'b>) -> Option<NamedExtension<'b>>
    ensures { MatchOption result
        ((d : DeclaredExtension) → IsDeclared (extension_of extension.now) d → ⊥)
        (λ named. IsDeclared (extension_of extension.now) (named_by named)) }
{
    let message = full_name(extension.extendee)?;
    Some(NamedExtension {
        message,
        number: extension.number,
        file: extension.file,
    })
}

/// Those of some extensions whose messages are spelled in full.
fn named<'b>(
    alloc: Global,
    extensions: &[Extension<'b>],
) -> Result<Vec<NamedExtension<'b>>, AllocError>
    ensures named { IfOk result (λ named. AreNamed (map extension_of extensions.now) (names_of named.items)) }
    ensures few { IfOk result (λ named. length named.items ≤ length extensions.now) }
{
    let mut named = Vec::new(alloc);
    for extension in extensions {
        if let Some(extension) = named_extension(extension) {
            named.push(extension)?;
        }
    }
    Ok(named)
}

/// Whether two have one message and one number.
fn have_one_number(tabled: &TabledExtension, named: &NamedExtension) -> bool
    ensures { IsTrue result ↔ HaveOneNumber (declared_extension tabled.now) (named_by named.now) }
{
    tabled.message.as_str() == named.message && tabled.number == named.number
}

/// Whether an extension has the message and the number of the last one of a table.
fn is_repeated(table: &[TabledExtension], extension: &NamedExtension) -> bool
    ensures { IsTrue result ↔ IsRepeated (map declared_extension table.now) (named_by extension.now) }
{
    match table.last() {
        Some(last) => have_one_number(last, extension),
        None => false,
    }
}

/// The first of each message and number, among some in order.
fn first_of_each(
    alloc: Global,
    sorted: &[NamedExtension],
) -> Result<Vec<TabledExtension>, AllocError>
    requires { AreInOrder (names_of sorted.now) }
    ensures { IfOk result (λ table. IsTableOf (names_of sorted.now) (map declared_extension table.items)) }
{
    let mut table = Vec::new(alloc);
    for extension in sorted {
        if !is_repeated(&table, extension) {
            table.push(TabledExtension {
                message: String::from_str(alloc, extension.message)?,
                number: extension.number,
                file: extension.file as usize,
            })?;
        }
    }
    Ok(table)
}

/// The extensions of a set by message and number, with the first file that declares each.
pub(crate) fn table_of_extensions(
    alloc: Global,
    extensions: &[Extension],
) -> Result<Vec<TabledExtension>, AllocError>
    ensures { IfOk result (λ table. AreTabled (map extension_of extensions.now)
        (map declared_extension table.items)) }
{
    let mut sorted = named(alloc, extensions)?;
    sorted.sort_unstable();
    first_of_each(alloc, &sorted)
}
