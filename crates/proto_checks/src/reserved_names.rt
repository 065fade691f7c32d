//! Reserved names: that none is reserved twice, and that none is in use.

ghost use Rattle.std.specs.Prelude.{◌≡◌, ◌↔◌, ◌∷◌, ◌++◌, [], Contains, IfOk, IfSome, IsTrue, OnOk, flat_map, map};
ghost use Rattle.proto_base.specs.declared.kind.Kind.TheVariants.{ReservedNameTwice};
ghost use Rattle.proto_checks.specs.Gathered.{reserved_name};
ghost use Rattle.proto_options.specs.Statements.{names_in};
ghost use Rattle.proto_base.specs.Sets.{Gains};
ghost use Rattle.proto_checks.specs.Marks.{TextTwice, ReservedNameUsed};
ghost use Rattle.proto_checks.specs.NameSets.{HoldsJust};
ghost use Rattle.proto_checks.specs.Parts.{name_mark};

use crate::faults::put_fault;
use crate::marks::PlacedText;
use crate::repeats::{FEW, put_texts_twice};
use proto_base::text::Text;
use proto_base::{Kind, Spot};
use proto_desc::Declares;
use proto_options::{Reserves, names_listed};
use proto_tree::StringValue;
use proto_tree::text::joined;
use std::alloc::{AllocError, Global};
use std::collections::BTreeSet;

/// Adds a name that is reserved. It borrows the text of one literal, and owns that of more.
fn put_reserved<'s>(
    alloc: Global,
    names: &mut Vec<PlacedText<'s>>,
    name: &StringValue<'s>,
) -> Result<(), AllocError>
    ensures { OnOk result (names.new.items ≡ names.old.items ++ reserved_name name.now ∷ []) }
{
    names.push(PlacedText {
        text: joined(alloc, name)?,
        place: name.first.span.start,
    })?;
    Ok(())
}

/// The names that statements reserve.
fn reserved_names<'s, I: Reserves<'s>>(
    alloc: Global,
    items: &[I],
) -> Result<Vec<PlacedText<'s>>, AllocError>
    ensures { IfOk result (λ names. names.items
        ≡ map reserved_name (flat_map names_in (flat_map I.reserved_by items.now))) }
{
    let listed = names_listed(alloc, items)?;
    let mut names = Vec::with_capacity(alloc, listed.len())?;
    for name in listed {
        put_reserved(alloc, &mut names, name)?;
    }
    Ok(names)
}

/// Puts the names that statements reserve though they are reserved already.
pub(crate) fn put_reserved_twice<'s, I: Reserves<'s>>(
    alloc: Global,
    faults: &mut Vec<Spot>,
    items: &[I],
) -> Result<(), AllocError>
    ensures { OnOk result (Gains
        (TextTwice ReservedNameTwice
        (map reserved_name (flat_map names_in (flat_map I.reserved_by items.now))))
        faults.old.items faults.new.items) }
{
    let names = reserved_names(alloc, items)?;
    put_texts_twice(alloc, faults, Kind::ReservedNameTwice, &names)
}

fn set_of<'a>(alloc: Global, names: &'a [Text]) -> Result<BTreeSet<&'a str>, AllocError>
    ensures { IfOk result (λ set. HoldsJust names.now set) }
{
    let mut set = BTreeSet::new(alloc);
    for name in names {
        set.insert(name.as_str())?;
    }
    Ok(set)
}

/// Whether a name is reserved: asks the set of the reserved names, if there is one.
fn is_reserved(reserved: &[Text], set: &Option<BTreeSet<&str>>, name: &str) -> bool
    requires { IfSome set.now (HoldsJust reserved.now) }
    ensures { IsTrue result ↔ Contains reserved.now name.now }
{
    match set {
        Some(set) => set.contains(name),
        None => reserved.iter().any(|text| name == text.as_str()),
    }
}

/// Puts the elements whose names are reserved: asks the set of the reserved names, if there is one.
fn put_members_reserved<D: Declares>(
    faults: &mut Vec<Spot>,
    reserved: &[Text],
    set: &Option<BTreeSet<&str>>,
    members: &[D],
) -> Result<(), AllocError>
    requires { IfSome set.now (HoldsJust reserved.now) }
    ensures { OnOk result (Gains
        (ReservedNameUsed reserved.now (map (name_mark D.declared) members.now))
        faults.old.items faults.new.items) }
{
    for member in members {
        let declared = member.declared_name();
        if is_reserved(reserved, set, declared.name) {
            put_fault(faults, declared.place, Kind::ReservedNameUsed)?;
        }
    }
    Ok(())
}

/// Puts the elements whose names are reserved.
pub(crate) fn put_reserved_names_used<D: Declares>(
    alloc: Global,
    faults: &mut Vec<Spot>,
    reserved: &[Text],
    members: &[D],
) -> Result<(), AllocError>
    ensures { OnOk result (Gains
        (ReservedNameUsed reserved.now (map (name_mark D.declared) members.now))
        faults.old.items faults.new.items) }
{
    if reserved.is_empty() {
        return Ok(());
    }
    let set = if reserved.len() > FEW {
        Some(set_of(alloc, reserved)?)
    } else {
        None
    };
    put_members_reserved(faults, reserved, &set, members)
}
