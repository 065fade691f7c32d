//! A walk over what a file's descriptor declares.

ghost use Rattle.std.specs.Prelude.{◌≡◌, ◌++◌, ◌∷◌, [], Err, IfOk, List, OnOk, map, option_map, ℕ};
ghost use Rattle.std.specs.List.{filter_map};
ghost use Rattle.proto_names.specs.Entries.{IsScopeAmong, scope_name};
ghost use Rattle.proto_sets.specs.Elements.{scope_inside, text_of};
ghost use Rattle.proto_sets.specs.Says.{Said, Say, said_by, said_extension, said_occurrence};
ghost use Rattle.proto_sets.specs.SaysSteps.{extension_of};
ghost use Rattle.wire_format.specs.ProgramFields.{field_of};
ghost use Rattle.proto_sets.specs.declared.error.ReadError.TheVariants as errors;

use crate::element::{Element, kind_of};
use crate::error::ReadError;
use crate::extension::Extension;
use crate::head::START;
use crate::last::{last_number, last_text};
use crate::reading::{ReadElement, read_element};
use proto_names::{Entries, Location};
use std::alloc::{AllocError, Global};
use wire_format::Field;

/// What files are found to declare.
#[derive(Drop)]
pub(crate) struct Found<'b> {
    pub(crate) names: Entries,
    pub(crate) extensions: Vec<Extension<'b>>,
}

/// The extension that an element is.
fn extension_by<'b>(element: &ReadElement<'b>, file: u32) -> Option<Extension<'b>>
    ensures { (scope : List ℕ) → option_map extension_of result ≡ said_extension file
        (said_by element.now.element scope (map field_of element.now.fields.items)) }
{
    match element.element {
        Element::Extension => {
            let number = (last_number(&element.fields, 3) % 4_294_967_296) as u32;
            Some(Extension {
                extendee: last_text(&element.fields, 2),
                number,
                file,
            })
        }
        _ => None,
    }
}

impl<'b> Found<'b> {
    /// Puts an element in the scope whose entry stands at a position; without one, in no scope. It gives the scope of what
    /// stands in the element.
    fn push(
        &mut self,
        file: u32,
        scope: Option<u32>,
        element: &ReadElement<'b>,
    ) -> Result<Option<u32>, AllocError>
        requires scope { IsScopeAmong self.old.names scope }
        requires name { element.now.name.now ≡ text_of 1 (map field_of element.now.fields.items) }
        ensures names { OnOk result (self.new.names ≡ self.old.names ++ said_occurrence file
            (said_by element.now.element (scope_name self.old.names scope)
            (map field_of element.now.fields.items)) ∷ []) }
        ensures extensions { OnOk result (map extension_of self.new.extensions.items
            ≡ map extension_of self.old.extensions.items ++ filter_map (said_extension file)
            (said_by element.now.element (scope_name self.old.names scope)
            (map field_of element.now.fields.items) ∷ [])) }
        ensures scope { IfOk result (IsScopeAmong self.new.names) }
        ensures inside { IfOk result (λ inside. scope_name self.new.names inside
            ≡ scope_inside element.now.element (scope_name self.old.names scope)
            element.now.name.now) }
    {
        let location = Location { file, place: START };
        let kind = kind_of(element.element);
        let inside = self.names.push(scope, element.name, location, Some(kind))?;
        if let Some(extension) = extension_by(element, file) {
            self.extensions.push(extension)?;
        }
        match element.element {
            Element::Enumeration => Ok(scope),
            _ => Ok(inside),
        }
    }
}

/// Puts what fields declare, in a file or in an element, in the scope whose entry stands at a position; without one, in no
/// scope. `Malformed` says that one of the elements is no row of fields, that its name isn't UTF-8, or that more than so many
/// stand within one another.
pub(crate) fn put_all<'b>(
    alloc: Global,
    found: &mut Found<'b>,
    file: u32,
    scope: Option<u32>,
    holder: Option<Element>,
    fields: &[Field<'b>],
    depth: u64,
) -> Result<(), ReadError>
    requires { IsScopeAmong found.old.names scope }
    ensures said { OnOk result ((said : List Said)
        × Say depth holder (scope_name found.old.names scope) (map field_of fields.now) said
        × (found.new.names ≡ found.old.names ++ map (said_occurrence file) said)
        × (map extension_of found.new.extensions.items
        ≡ map extension_of found.old.extensions.items ++ filter_map (said_extension file) said)) }
    ensures malformed { result ≡ Err errors.Malformed → (said : List Said)
        → Say depth holder (scope_name found.old.names scope) (map field_of fields.now) said → ⊥ }
{
    for field in fields {
        if let Some(element) = read_element(alloc, holder, field)? {
            if depth == 0 {
                return Err(ReadError::Malformed);
            }
            let inside = found.push(file, scope, &element)?;
            put_all(
                alloc,
                found,
                file,
                inside,
                Some(element.element),
                &element.fields,
                depth - 1,
            )?;
        }
    }
    Ok(())
}
