//! What a file's descriptor says of the file itself.

ghost use Rattle.std.specs.Prelude.{◌≡◌, ◌≤◌, ℕ, Err, IfOk, IsUtf8, List, length, map};
ghost use Rattle.std.specs.List.{AllByRecursion, filter_map};
ghost use Rattle.proto_desc.specs.declared.file.FileDesc.{FileDesc as Head};
ghost use Rattle.proto_sets.specs.Elements.{number_in, text_of};
ghost use Rattle.proto_sets.specs.Heads.{IsHead, imports_from, package_by, paths_of};
ghost use Rattle.proto_sets.specs.HeadSteps.{AreFlags};
ghost use Rattle.wire_format.specs.ProgramFields.{field_of};
ghost use Rattle.proto_sets.specs.declared.error.ReadError.TheVariants as errors;

use crate::error::ReadError;
use crate::last::last_text;
use proto_base::Place;
use proto_base::row::Row;
use proto_base::text::Text;
use proto_desc::file::{FileDesc, ImportDescriptor, PackageDescriptor};
use std::alloc::{AllocError, Global};
use wire_format::{Field, FieldValue};

/// The first byte of a file: descriptors have no places.
pub(crate) const START: Place = Place { offset: 0 };

/// The text of a string.
pub(crate) fn utf8(bytes: &[u8]) -> Result<&str, ReadError>
    ensures utf8 { IfOk result (λ text. (text.now ≡ bytes.now) × IsUtf8 bytes.now) }
    ensures other { result ≡ Err errors.Malformed → ¬ IsUtf8 bytes.now }
{
    std::str::from_utf8(bytes).ok().ok_or(ReadError::Malformed)
}

/// The positions of the public imports among all.
fn publics_of(alloc: Global, fields: &[Field]) -> Result<Vec<u64>, AllocError>
    ensures { IfOk result (λ publics. publics.items
        ≡ filter_map (number_in 10) (map field_of fields.now)) }
{
    let mut publics = Vec::new(alloc);
    for field in fields {
        if let FieldValue::Varint(value) = field.value {
            if field.number == 10 {
                publics.push(value)?;
            }
        }
    }
    Ok(publics)
}

/// Of each position below a count, whether it is among some.
fn flags_of(alloc: Global, positions: &[u64], count: usize) -> Result<Vec<bool>, AllocError>
    ensures size { IfOk result (λ flags. length flags.items ≡ count) }
    ensures told { IfOk result (λ flags. AreFlags positions.now flags.items) }
{
    let mut flags = vec![in alloc; false; count]?;
    for position in positions {
        if *position < count as u64 {
            flags[*position as usize] = true;
        }
    }
    Ok(flags)
}

/// The imports of a file, each with its flag, which says whether it is public.
fn imports_of<'b>(
    alloc: Global,
    fields: &[Field<'b>],
    flags: &[bool],
) -> Result<Row<ImportDescriptor<'b>>, ReadError>
    requires { length fields.now ≤ length flags.now }
    ensures imports { (publics : List ℕ) → AreFlags publics flags.now → IfOk result
        (λ imports. imports ≡ imports_from publics 0 (paths_of (map field_of fields.now))) }
    ensures utf8 { IfOk result (λ _. AllByRecursion IsUtf8 (paths_of (map field_of fields.now))) }
    ensures malformed { result ≡ Err errors.Malformed
        → AllByRecursion IsUtf8 (paths_of (map field_of fields.now)) → ⊥ }
{
    let mut imports = Vec::new(alloc);
    for field in fields {
        if let FieldValue::Delimited(bytes) = field.value {
            if field.number == 3 {
                let path = Text::borrowed(utf8(bytes)?);
                let is_public = flags[imports.len()];
                imports.push(ImportDescriptor {
                    path,
                    place: START,
                    is_public,
                })?;
            }
        }
    }
    Ok(Row::from_vec(imports))
}

/// The package of this name, none where it is empty.
fn package_of<'b>(name: &'b str) -> Option<PackageDescriptor<'b>>
    ensures { result ≡ package_by name.now }
{
    if name.is_empty() {
        return None;
    }
    Some(PackageDescriptor {
        name: Text::borrowed(name),
        place: START,
    })
}

/// The head of a file with these fields. `Malformed` says that its name, its package or the path of an import isn't UTF-8.
pub(crate) fn read_head<'b>(alloc: Global, fields: &[Field<'b>]) -> Result<FileDesc<'b>, ReadError>
    ensures head { IfOk result (IsHead (map field_of fields.now)) }
    ensures malformed { result ≡ Err errors.Malformed → (head : Head)
        → IsHead (map field_of fields.now) head → ⊥ }
{
    let name = utf8(last_text(fields, 1))?;
    let package = utf8(last_text(fields, 2))?;
    let publics = publics_of(alloc, fields)?;
    let flags = flags_of(alloc, &publics, fields.len())?;
    let imports = imports_of(alloc, fields, &flags)?;
    Ok(FileDesc {
        name: Text::borrowed(name),
        package: package_of(package),
        imports,
        messages: Row::new(alloc),
        enums: Row::new(alloc),
        services: Row::new(alloc),
        options: Row::new(alloc),
    })
}
