//! Rules on package statements: that there is one at most, and that its parts and its name are no longer than the limits allow.

ghost use Rattle.std.specs.Prelude.{◌≡◌, OnOk, true, flat_map};
ghost use Rattle.proto_base.specs.declared.kind.Kind.TheVariants as kind;
ghost use Rattle.proto_options.specs.Statements.{file_package};
ghost use Rattle.proto_checks.specs.Checks.{parts_of, IsPartTooLong, IsWholeTooLong, PackageTooLong, PackageTwice};
ghost use Rattle.proto_base.specs.Least.{spot};
ghost use Rattle.proto_base.specs.Sets.{Each, Gains, Where};

use crate::faults::put_fault;
use proto_base::{Kind, Limit, Limits, Place, Spot};
use proto_tree::text::dotted_len;
use proto_tree::{FullName, Package, Statement};
use std::alloc::AllocError;

fn put_again(faults: &mut Vec<Spot>, is_again: bool, declared: &Package) -> Result<(), AllocError>
    ensures { OnOk result (Gains
        (Where (is_again ≡ true) (spot declared.now.keyword.start kind.PackageTwice))
        faults.old.items faults.new.items) }
{
    if is_again {
        put_fault(faults, declared.keyword.start, Kind::PackageTwice)
    } else {
        Ok(())
    }
}

/// Puts the package statements behind the first one.
pub(crate) fn put_packages_twice(
    faults: &mut Vec<Spot>,
    statements: &[Statement],
) -> Result<(), AllocError>
    ensures { OnOk result (Gains (PackageTwice (flat_map file_package statements.now))
        faults.old.items faults.new.items) }
{
    let mut is_named = false;
    for statement in statements {
        if let Statement::Package(package) = statement {
            put_again(faults, is_named, package.get())?;
            is_named = true;
        }
    }
    Ok(())
}

fn put_long_part(
    faults: &mut Vec<Spot>,
    limits: &Limits,
    place: Place,
    part: &str,
) -> Result<(), AllocError>
    ensures { OnOk result (Gains (IsPartTooLong limits.now place part.now)
        faults.old.items faults.new.items) }
{
    if part.len() as u64 > limits.get(Limit::NameBytes) {
        put_fault(faults, place, Kind::NameTooLong)
    } else {
        Ok(())
    }
}

fn put_long_parts(
    faults: &mut Vec<Spot>,
    limits: &Limits,
    place: Place,
    name: &FullName,
) -> Result<(), AllocError>
    ensures { OnOk result (Gains (Each (parts_of name.now) (IsPartTooLong limits.now place))
        faults.old.items faults.new.items) }
{
    put_long_part(faults, limits, place, name.first.text)?;
    for part in name.rest.as_slice() {
        put_long_part(faults, limits, place, part.name.text)?;
    }
    Ok(())
}

fn put_long_whole(
    faults: &mut Vec<Spot>,
    limits: &Limits,
    place: Place,
    name: &FullName,
) -> Result<(), AllocError>
    ensures { OnOk result (Gains (IsWholeTooLong limits.now place name.now)
        faults.old.items faults.new.items) }
{
    if dotted_len(name) as u64 > limits.get(Limit::FullNameBytes) {
        put_fault(faults, place, Kind::NameTooLong)
    } else {
        Ok(())
    }
}

fn put_long_package(
    faults: &mut Vec<Spot>,
    limits: &Limits,
    declared: &Package,
) -> Result<(), AllocError>
    ensures { OnOk result (Gains (PackageTooLong limits.now declared.now)
        faults.old.items faults.new.items) }
{
    let name = &declared.name;
    let place = name.first.span.start;
    put_long_parts(faults, limits, place, name)?;
    put_long_whole(faults, limits, place, name)
}

/// Puts the packages that are too long or have parts that are.
pub(crate) fn put_long_packages(
    faults: &mut Vec<Spot>,
    limits: &Limits,
    statements: &[Statement],
) -> Result<(), AllocError>
    ensures { OnOk result (Gains
        (Each (flat_map file_package statements.now) (PackageTooLong limits.now))
        faults.old.items faults.new.items) }
{
    for statement in statements {
        if let Statement::Package(package) = statement {
            put_long_package(faults, limits, package.get())?;
        }
    }
    Ok(())
}
