//! The bytes of a set, and those of its files.

ghost use Rattle.std.specs.Prelude.{◌≡◌, ◌≤◌, ℕ, List, Err, IfErr, IfOk, OnOk, length, map};
ghost use Rattle.std.specs.List.{filter_map};
ghost use Rattle.proto_base.specs.Limits.{limit_of};
ghost use Rattle.proto_base.specs.declared.limits.Limit.TheVariants as limit;
ghost use Rattle.proto_sets.specs.Elements.{text_in};
ghost use Rattle.proto_sets.specs.SetFaults.{IsLeastFault, TellsOf};
ghost use Rattle.proto_sets.specs.Sets.{AreTexts};
ghost use Rattle.proto_sets.specs.declared.error.ReadError.TheVariants as errors;
ghost use Rattle.wire_format.specs.ProgramFields.{field_of};

use crate::error::{ReadError, fields_in};
use crate::fault::{FaultyFile, SetError, SetKind, refusal};
use proto_base::{Limit, Limits};
use proto_compilation::FILE_FIELD;
use std::alloc::{AllocError, Global};
use wire_format::{Field, FieldValue};

/// What the fields of a set hold as files.
fn texts_among<'b>(alloc: Global, fields: &[Field<'b>]) -> Result<Vec<&'b [u8]>, AllocError>
    ensures { IfOk result (λ texts. map (λ t. t.now) texts.items
        ≡ filter_map (text_in 1) (map field_of fields.now)) }
{
    let mut texts = Vec::new(alloc);
    for field in fields {
        if let FieldValue::Delimited(bytes) = field.value {
            if field.number == FILE_FIELD {
                texts.push(bytes)?;
            }
        }
    }
    Ok(texts)
}

/// The bytes of the files of a set, in their order.
fn texts_of<'b>(alloc: Global, set: &'b [u8]) -> Result<Vec<&'b [u8]>, ReadError>
    ensures texts { IfOk result (λ texts. AreTexts set.now (map (λ t. t.now) texts.items)) }
    ensures malformed { result ≡ Err errors.Malformed → (texts : List (List ℕ))
        → AreTexts set.now texts → ⊥ }
{
    let fields = fields_in(alloc, set)?;
    Ok(texts_among(alloc, &fields)?)
}

/// The bytes of the files of a set, in their order, where neither they nor those of the set are more than the limit.
pub(crate) fn file_texts<'b>(
    alloc: Global,
    set: &'b [u8],
    limits: &Limits,
) -> Result<Vec<&'b [u8]>, SetError>
    ensures short { OnOk result (length set.now ≤ limit_of limits.now limit.SetBytes) }
    ensures texts { IfOk result (λ texts. AreTexts set.now (map (λ t. t.now) texts.items)) }
    ensures few { IfOk result (λ texts. length texts.items ≤ limit_of limits.now limit.Files) }
    ensures first { IfErr result (TellsOf (IsLeastFault limits.now set.now)) }
{
    if set.len() as u64 > limits.get(Limit::SetBytes) {
        return Err(refusal(SetKind::SetTooLong, FaultyFile::WholeSet));
    }
    let texts = match texts_of(alloc, set) {
        Ok(texts) => texts,
        Err(ReadError::Malformed) => {
            return Err(refusal(SetKind::MalformedSet, FaultyFile::WholeSet));
        }
        Err(ReadError::NoMemory) => return Err(SetError::NoMemory),
    };
    if texts.len() as u64 > limits.get(Limit::Files) {
        return Err(refusal(SetKind::TooManyFiles, FaultyFile::WholeSet));
    }
    Ok(texts)
}
