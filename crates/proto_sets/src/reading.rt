//! Reading the element that a field holds.

ghost use Rattle.std.specs.Prelude.{◌≡◌, Err, IfOk};
ghost use Rattle.proto_sets.specs.SaysSteps.{IsReadElement, IsReadable};
ghost use Rattle.wire_format.specs.ProgramFields.{field_of};
ghost use Rattle.proto_sets.specs.declared.error.ReadError.TheVariants as errors;

use crate::element::{Element, element_in};
use crate::error::{ReadError, fields_in};
use crate::head::utf8;
use crate::last::last_text;
use std::alloc::Global;
use wire_format::{Field, FieldValue};

/// An element as it is read: its name, and the fields of its descriptor.
#[derive(Drop)]
pub(crate) struct ReadElement<'b> {
    pub(crate) element: Element,
    pub(crate) name: &'b str,
    pub(crate) fields: Vec<Field<'b>>,
}

/// The element that a field holds, or none. `Malformed` says that it holds one that is no row of fields, or whose name isn't
/// UTF-8.
pub(crate) fn read_element<'b>(
    alloc: Global,
    holder: Option<Element>,
    field: &Field<'b>,
) -> Result<Option<ReadElement<'b>>, ReadError>
    ensures found { IfOk result (IsReadElement holder (field_of field.now)) }
    ensures malformed { result ≡ Err errors.Malformed → IsReadable holder (field_of field.now) → ⊥ }
{
    let FieldValue::Delimited(bytes) = field.value else {
        return Ok(None);
    };
    let Some(element) = element_in(holder, field.number) else {
        return Ok(None);
    };
    let fields = fields_in(alloc, bytes)?;
    let name = utf8(last_text(&fields, 1))?;
    Ok(Some(ReadElement {
        element,
        name,
        fields,
    }))
}
