//! What one name of a type means, or what is wrong with it.

ghost use Rattle.std.specs.Prelude.{◌≡◌, ◌↔◌, IsTrue, ◌∷◌, IfOk, OnOk};
ghost use Rattle.proto_desc.specs.DeclaredNames.{scoped};
ghost use Rattle.proto_base.specs.Sets.{Each, Gains};
ghost use Rattle.proto_types.specs.References.{IsPacked};
ghost use Rattle.proto_types.specs.Steps.{type_kind_of, SetsPacked, OptionsBreak, IsNaming};

use crate::known_scopes::KnownScopes;
use proto_base::{Kind, Spot};
use proto_desc::absolute_name::AbsoluteName;
use proto_desc::name_kind::NameKind;
use proto_desc::options::{OptionDescriptor, OptionValue};
use proto_desc::type_name::TypeKind;
use proto_names::FoundType;
use std::alloc::{AllocError, Global};

/// A type that a file names.
#[derive(Drop)]
pub struct NamedType {
    /// Its full name behind a leading dot.
    pub full_name: AbsoluteName,
    pub kind: TypeKind,
}

/// What a name of a type was found to be.
#[derive(Drop)]
pub(crate) enum Meaning {
    Named(NamedType),
    /// No type, or not one that is wanted.
    Wrong(Spot),
}

/// A message, or else an enum.
fn type_kind(kind: NameKind) -> TypeKind
    ensures { result ≡ type_kind_of kind }
{
    match kind {
        NameKind::Message => TypeKind::Message,
        _ => TypeKind::Enum,
    }
}

/// `packed`, field 2 of `FieldOptions`.
const PACKED: u32 = 2;

/// Whether an option is `packed = true`.
fn is_packed(option: &OptionDescriptor) -> bool
    ensures { IsTrue result ↔ IsPacked option.now }
{
    option.number == PACKED && matches!(option.value, OptionValue::Number(1))
}

/// Puts the options that set `packed`, as faults.
fn put_packed(faults: &mut Vec<Spot>, options: &[OptionDescriptor]) -> Result<(), AllocError>
    ensures { OnOk result (Gains (Each options.now SetsPacked) faults.old.items faults.new.items) }
{
    for option in options {
        if is_packed(option) {
            let place = option.place;
            let kind = Kind::PackedOnMessage;
            faults.push(Spot { place, kind })?;
        }
    }
    Ok(())
}

/// Puts what is wrong with the options of a field whose type is of this kind.
pub(crate) fn put_option_faults(
    faults: &mut Vec<Spot>,
    kind: TypeKind,
    options: &[OptionDescriptor],
) -> Result<(), AllocError>
    ensures { OnOk result (Gains (OptionsBreak kind options.now)
        faults.old.items faults.new.items) }
{
    match kind {
        TypeKind::Message => put_packed(faults, options),
        TypeKind::Enum => Ok(()),
    }
}

/// The full name of a name in a scope, behind a leading dot.
#[tactic(auto, using(crate::proofs::Meanings::scoped_behind_dot))]
fn absolute(
    alloc: Global,
    known: &mut KnownScopes,
    scope: &str,
    name: &str,
) -> Result<AbsoluteName, AllocError>
    ensures { IfOk result (λ absolute. absolute ≡ 46 ∷ scoped scope.now name.now) }
{
    let name = String::from_str(alloc, name)?;
    Ok(AbsoluteName::new(known.shared(scope)?, name))
}

/// The type that a name was found to be.
pub(crate) fn meaning_of(
    alloc: Global,
    known: &mut KnownScopes,
    found: FoundType,
) -> Result<Meaning, AllocError>
    ensures { IfOk result (IsNaming (scoped found.entry.scope.now found.entry.name.now)
        (type_kind_of found.entry.kind)) }
{
    let kind = type_kind(found.kind);
    let full_name = absolute(alloc, known, found.scope, found.name)?;
    Ok(Meaning::Named(NamedType { full_name, kind }))
}
