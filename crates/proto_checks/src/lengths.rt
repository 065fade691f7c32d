//! That no name and no full name is longer than the limits allow. Full names are measured and never built.

ghost use Rattle.std.specs.Prelude.{◌≡◌, ℕ, List, OnOk, map, flat_map};
ghost use Rattle.proto_desc.specs.DeclaredNames.{scoped, declared_by_enum, declared_by_message, declared_by_service};
ghost use Rattle.proto_checks.specs.Checks.{IsTooLong};
ghost use Rattle.proto_checks.specs.Lengths.{capped, IsLongName, declared_inside_of};
ghost use Rattle.proto_base.specs.Sets.{Each, Gains};

use crate::faults::put_fault;
use proto_base::{Kind, Limit, Limits, Place, Spot};
use proto_desc::Declares;
use proto_desc::enumeration::EnumDesc;
use proto_desc::field::FieldDesc;
use proto_desc::message::MessageDesc;
use proto_desc::oneof::OneofDesc;
use proto_desc::service::ServiceDesc;
use std::alloc::AllocError;

/// The length of a name behind its scope, up to the greatest that there is.
fn full_len(scope_len: usize, name: &str) -> usize
    ensures { (scope : List ℕ) → scope_len ≡ capped scope
        → result ≡ capped (scoped scope name.now) }
{
    if scope_len == 0 {
        name.len()
    } else {
        scope_len.saturating_add(1).saturating_add(name.len())
    }
}

/// Puts a name that is too long, by itself or behind its scope.
fn put_long_name(
    faults: &mut Vec<Spot>,
    limits: &Limits,
    scope_len: usize,
    name: &str,
    place: Place,
) -> Result<(), AllocError>
    ensures { (scope : List ℕ) → scope_len ≡ capped scope
        → OnOk result (Gains (IsLongName limits.now scope name.now place)
        faults.old.items faults.new.items) }
{
    let full = full_len(scope_len, name);
    let is_long = name.len() as u64 > limits.get(Limit::NameBytes);
    if is_long || full as u64 > limits.get(Limit::FullNameBytes) {
        put_fault(faults, place, Kind::NameTooLong)
    } else {
        Ok(())
    }
}

/// Puts the names that are too long of elements that declare their own names alone.
fn put_long_members<D: Declares>(
    faults: &mut Vec<Spot>,
    limits: &Limits,
    scope_len: usize,
    members: &[D],
) -> Result<(), AllocError>
    ensures { (scope : List ℕ) → scope_len ≡ capped scope
        → OnOk result (Gains (Each (map (D.declared scope) members.now) (IsTooLong limits.now))
        faults.old.items faults.new.items) }
{
    for member in members {
        let declared = member.declared_name();
        put_long_name(faults, limits, scope_len, declared.name, declared.place)?;
    }
    Ok(())
}

/// What declares names, its own among them.
pub(crate) trait DeclaresAll {
    ghost use Rattle.std.specs.Prelude.{◌≡◌, ℕ, List, OnOk};
    ghost use Rattle.proto_desc.specs.DeclaredNames.{Declared};
    ghost use Rattle.proto_base.specs.Sets.{Each, Gains};
    ghost use Rattle.proto_checks.specs.Checks.{IsTooLong};
    ghost use Rattle.proto_checks.specs.Lengths.{capped};

    /// These names, in a scope.
    ghost declares: { List ℕ → Self → List Declared };

    /// Puts those of them that are too long.
    fn put_long(
        &self,
        faults: &mut Vec<Spot>,
        limits: &Limits,
        scope_len: usize,
    ) -> Result<(), AllocError>
        ensures { (scope : List ℕ) → scope_len ≡ capped scope
            → OnOk result (Gains (Each (declares scope self.now) (IsTooLong limits.now))
            faults.old.items faults.new.items) };
}

/// Puts the names that are too long of elements and of what stands in them.
pub(crate) fn put_long_names<D: DeclaresAll>(
    faults: &mut Vec<Spot>,
    limits: &Limits,
    scope_len: usize,
    elements: &[D],
) -> Result<(), AllocError>
    ensures { (scope : List ℕ) → scope_len ≡ capped scope
        → OnOk result (Gains (Each (flat_map (D.declares scope) elements.now) (IsTooLong limits.now))
        faults.old.items faults.new.items) }
{
    for element in elements {
        element.put_long(faults, limits, scope_len)?;
    }
    Ok(())
}

/// An enum and its values.
impl DeclaresAll for EnumDesc<'_> {
    ghost declares = { declared_by_enum };

    fn put_long(
        &self,
        faults: &mut Vec<Spot>,
        limits: &Limits,
        scope_len: usize,
    ) -> Result<(), AllocError> {
        put_long_name(faults, limits, scope_len, self.name.as_str(), self.place)?;
        put_long_members(faults, limits, scope_len, self.values.as_slice())
    }
}

/// A service and its methods.
impl DeclaresAll for ServiceDesc<'_> {
    ghost declares = { declared_by_service };

    fn put_long(
        &self,
        faults: &mut Vec<Spot>,
        limits: &Limits,
        scope_len: usize,
    ) -> Result<(), AllocError> {
        let name = self.name.as_str();
        put_long_name(faults, limits, scope_len, name, self.place)?;
        let len = full_len(scope_len, name);
        put_long_members(faults, limits, len, self.methods.as_slice())
    }
}

/// Puts the names that are too long of what stands in a message, but for the messages within it.
fn put_long_inside(
    faults: &mut Vec<Spot>,
    limits: &Limits,
    scope_len: usize,
    fields: &[FieldDesc],
    oneofs: &[OneofDesc],
    enums: &[EnumDesc],
) -> Result<(), AllocError>
    ensures { (scope : List ℕ) → scope_len ≡ capped scope
        → OnOk result (Gains (Each (declared_inside_of scope fields.now oneofs.now enums.now)
        (IsTooLong limits.now)) faults.old.items faults.new.items) }
{
    put_long_members(faults, limits, scope_len, fields)?;
    put_long_members(faults, limits, scope_len, oneofs)?;
    put_long_names(faults, limits, scope_len, enums)
}

/// Puts the names that are too long of a message and of all within it.
fn put_long_in_message(
    faults: &mut Vec<Spot>,
    limits: &Limits,
    scope_len: usize,
    message: &MessageDesc,
) -> Result<(), AllocError>
    ensures { (scope : List ℕ) → scope_len ≡ capped scope
        → OnOk result (Gains (Each (declared_by_message message.now scope) (IsTooLong limits.now))
        faults.old.items faults.new.items) }
{
    let name = message.name.as_str();
    let len = full_len(scope_len, name);
    put_long_name(faults, limits, scope_len, name, message.place)?;
    let fields = message.fields.as_slice();
    let oneofs = message.oneofs.as_slice();
    put_long_inside(
        faults,
        limits,
        len,
        fields,
        oneofs,
        message.enums.as_slice(),
    )?;
    for nested in message.nested.as_slice() {
        put_long_in_message(faults, limits, len, nested)?;
    }
    Ok(())
}

impl DeclaresAll for MessageDesc<'_> {
    ghost declares = { λ scope message. declared_by_message message scope };

    fn put_long(
        &self,
        faults: &mut Vec<Spot>,
        limits: &Limits,
        scope_len: usize,
    ) -> Result<(), AllocError> {
        put_long_in_message(faults, limits, scope_len, self)
    }
}
