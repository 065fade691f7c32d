//! Rules on the options of fields (`FieldOptions`).

ghost use Rattle.std.specs.Prelude.{◌≡◌, ◌↔◌, IsTrue, OnOk};
ghost use Rattle.proto_tree.specs.Lists.{separated};
ghost use Rattle.proto_checks.specs.Options.{is_packed_type, is_wide, is_repeated, IsWronglyPacked, IsOtherType, IsWronglyTyped, FieldOptionsBreak, optioned};
ghost use Rattle.proto_checks.specs.Parts.{IsWrongOnField};
ghost use Rattle.proto_base.specs.Sets.{Each, Gains};

use crate::faults::put_fault;
use crate::options::{choice_of_value, is_true, name_place};
use crate::settings::put_bracketed_setting_faults;
use proto_base::scalar_type::ScalarType;
use proto_base::{Kind, Spot};
use proto_desc::rules::{Element, JSTYPE, PACKED, ValueKind};
use proto_options::is_setting;
use proto_tree::{Declarator, FieldType, Label, Options, Setting};
use std::alloc::{AllocError, Global};

/// Whether a repeated field of this type may be packed. Of a type by its name it is known where names are resolved.
pub(crate) fn is_packed_type(field_type: &FieldType) -> bool
    ensures { result ≡ is_packed_type field_type.now }
{
    match field_type {
        FieldType::Scalar(ScalarType::String | ScalarType::Bytes, _) => false,
        _ => true,
    }
}

/// Whether the type is an integer of 64 bits.
pub(crate) fn is_wide(field_type: &FieldType) -> bool
    ensures { result ≡ is_wide field_type.now }
{
    match field_type {
        FieldType::Scalar(scalar, _) => matches!(
            scalar,
            ScalarType::Int64
                | ScalarType::Uint64
                | ScalarType::Sint64
                | ScalarType::Fixed64
                | ScalarType::Sfixed64
        ),
        FieldType::Named(_) => false,
    }
}

pub(crate) fn is_repeated(label: &Option<Label>) -> bool
    ensures { result ≡ is_repeated label.now }
{
    matches!(label, Some(Label::Repeated(_)))
}

fn put_wrongly_packed(
    faults: &mut Vec<Spot>,
    can_be_packed: bool,
    setting: &Setting,
) -> Result<(), AllocError>
    ensures { OnOk result (Gains (IsWronglyPacked can_be_packed setting.now)
        faults.old.items faults.new.items) }
{
    if !can_be_packed && is_setting(setting, PACKED) && is_true(&setting.value) {
        put_fault(faults, name_place(setting), Kind::PackedOnWrongKind)
    } else {
        Ok(())
    }
}

/// Whether a constant is a value of `jstype` other than `JS_NORMAL`.
fn is_other_type(setting: &Setting) -> bool
    ensures { IsTrue result ↔ IsOtherType setting.now.value }
{
    match choice_of_value(ValueKind::JsType, &setting.value) {
        Some(number) => number != 0,
        None => false,
    }
}

fn put_wrongly_typed(
    faults: &mut Vec<Spot>,
    is_wide_integer: bool,
    setting: &Setting,
) -> Result<(), AllocError>
    ensures { OnOk result (Gains (IsWronglyTyped is_wide_integer setting.now)
        faults.old.items faults.new.items) }
{
    if !is_wide_integer && is_setting(setting, JSTYPE) && is_other_type(setting) {
        put_fault(faults, name_place(setting), Kind::JstypeOnWrongKind)
    } else {
        Ok(())
    }
}

/// Puts what is wrong with a setting on a field alone.
fn put_wrong_on_field(
    faults: &mut Vec<Spot>,
    can_be_packed: bool,
    is_wide_integer: bool,
    setting: &Setting,
) -> Result<(), AllocError>
    ensures { OnOk result (Gains (IsWrongOnField can_be_packed is_wide_integer setting.now)
        faults.old.items faults.new.items) }
{
    put_wrongly_packed(faults, can_be_packed, setting)?;
    put_wrongly_typed(faults, is_wide_integer, setting)
}

/// Puts what is wrong with settings on a field alone.
fn put_all_wrong_on_field(
    faults: &mut Vec<Spot>,
    can_be_packed: bool,
    is_wide_integer: bool,
    options: &Options,
) -> Result<(), AllocError>
    ensures { OnOk result (Gains (Each (separated options.now.settings)
        (IsWrongOnField can_be_packed is_wide_integer)) faults.old.items faults.new.items) }
{
    for setting in options.settings.iter() {
        put_wrong_on_field(faults, can_be_packed, is_wide_integer, setting)?;
    }
    Ok(())
}

/// Puts the faults of the options of a field, of a map field or of a member of a oneof.
pub(crate) fn put_field_option_faults(
    alloc: Global,
    faults: &mut Vec<Spot>,
    declarator: &Declarator,
    can_be_packed: bool,
    is_wide_integer: bool,
) -> Result<(), AllocError>
    ensures { OnOk result (Gains
        (FieldOptionsBreak (optioned declarator.now can_be_packed is_wide_integer))
        faults.old.items faults.new.items) }
{
    let Some(options) = &declarator.options else {
        return Ok(());
    };
    put_all_wrong_on_field(faults, can_be_packed, is_wide_integer, options.get())?;
    put_bracketed_setting_faults(alloc, faults, Element::Field, &declarator.options)
}
