//! Rules on oneofs (language guide, "Oneof").

ghost use Rattle.std.specs.Prelude.{◌≡◌, OnOk};
ghost use Rattle.std.specs.List.{list_any};
ghost use Rattle.proto_checks.specs.Elements.{IsEmptyOneof, OneofBreaks};
ghost use Rattle.proto_checks.specs.Parts.{is_oneof_member};
ghost use Rattle.proto_base.specs.Sets.{Gains};

use crate::faults::put_fault;
use crate::settings::put_statement_setting_faults;
use proto_base::{Kind, Spot};
use proto_desc::rules::Element;
use proto_tree::{Oneof, OneofItem};
use std::alloc::{AllocError, Global};

fn has_member(items: &[OneofItem]) -> bool
    ensures { result ≡ list_any is_oneof_member items.now }
{
    items.iter().any(|item| matches!(item, OneofItem::Field(_)))
}

fn put_empty(faults: &mut Vec<Spot>, oneof: &Oneof) -> Result<(), AllocError>
    ensures { OnOk result (Gains (IsEmptyOneof oneof.now) faults.old.items faults.new.items) }
{
    if has_member(oneof.items.as_slice()) {
        Ok(())
    } else {
        put_fault(faults, oneof.name.span.start, Kind::OneofEmpty)
    }
}

/// Puts the faults of a oneof, without those of its members.
pub(crate) fn put_oneof_faults(
    alloc: Global,
    faults: &mut Vec<Spot>,
    oneof: &Oneof,
) -> Result<(), AllocError>
    ensures { OnOk result (Gains (OneofBreaks oneof.now) faults.old.items faults.new.items) }
{
    put_empty(faults, oneof)?;
    put_statement_setting_faults(alloc, faults, Element::Oneof, oneof.items.as_slice())
}
