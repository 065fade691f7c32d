//! Rules on enums (language guide, "Enumerations").

ghost use Rattle.std.specs.Prelude.{◌≡◌, OnOk};
ghost use Rattle.std.specs.List.{list_any};
ghost use Rattle.proto_options.specs.Statements.{enum_value};
ghost use Rattle.proto_checks.specs.Elements.{IsEmptyEnum, ValueBreaks, EnumBreaks};
ghost use Rattle.proto_checks.specs.Parts.{is_value};
ghost use Rattle.proto_base.specs.Sets.{Each, Gains};

use crate::each::{Check, put_each};
use crate::faults::put_fault;
use crate::numbers::put_enum_number_faults;
use crate::settings::{put_bracketed_setting_faults, put_statement_setting_faults};
use proto_base::{Kind, Spot};
use proto_desc::rules::Element;
use proto_tree::{Enum, EnumItem, EnumValue};
use std::alloc::{AllocError, Global};

fn has_value(items: &[EnumItem]) -> bool
    ensures { result ≡ list_any is_value items.now }
{
    items.iter().any(|item| matches!(item, EnumItem::Value(_)))
}

fn put_empty(faults: &mut Vec<Spot>, declared: &Enum) -> Result<(), AllocError>
    ensures { OnOk result (Gains (IsEmptyEnum declared.now) faults.old.items faults.new.items) }
{
    if has_value(declared.items.as_slice()) {
        Ok(())
    } else {
        put_fault(faults, declared.name.span.start, Kind::EnumEmpty)
    }
}

fn put_value_faults(
    alloc: Global,
    faults: &mut Vec<Spot>,
    value: &EnumValue,
) -> Result<(), AllocError>
    ensures { OnOk result (Gains (ValueBreaks value.now) faults.old.items faults.new.items) }
{
    put_bracketed_setting_faults(alloc, faults, Element::EnumValue, &value.options)
}

impl Check for EnumItem<'_> {
    ghost breaks = { λ item. Each (enum_value item) ValueBreaks };

    fn put_faults(&self, alloc: Global, faults: &mut Vec<Spot>) -> Result<(), AllocError> {
        match self {
            EnumItem::Value(value) => put_value_faults(alloc, faults, value.get()),
            EnumItem::Option(_) | EnumItem::Reserved(_) | EnumItem::Empty(_) => Ok(()),
        }
    }
}

/// Puts the faults of an enum.
pub(crate) fn put_enum_faults(
    alloc: Global,
    faults: &mut Vec<Spot>,
    declared: &Enum,
) -> Result<(), AllocError>
    ensures { OnOk result (Gains (EnumBreaks declared.now) faults.old.items faults.new.items) }
{
    let items = declared.items.as_slice();
    put_empty(faults, declared)?;
    put_enum_number_faults(alloc, faults, items)?;
    put_statement_setting_faults(alloc, faults, Element::Enum, items)?;
    put_each(alloc, faults, items)
}
