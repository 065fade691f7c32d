//! The occurrences of names in files, as a walk over the files finds them.

ghost use Rattle.std.specs.Prelude.{◌≡◌, ℕ, ◌+◌, ◌<◌, ◌^◌, ◌++◌, List, map, flat_map, length, IfOk, OnOk};
ghost use Rattle.proto_desc.specs.declared.file.FileDesc.{FileDesc};
ghost use Rattle.proto_names.specs.Collected.{IsCollected};
ghost use Rattle.proto_names.specs.Entries.{IsScopeAmong, scope_name};
ghost use Rattle.proto_desc.specs.DeclaredNames.{declared_by_enum, declared_by_message, declared_by_service, declared_in, file_scope};
ghost use Rattle.proto_names.specs.Occurrences.{declared_occurrence, package_occurrences, occurrences_of};

use crate::entries::Entries;
use crate::entry::Location;
use proto_desc::enumeration::EnumDesc;
use proto_desc::file::{FileDesc, PackageDescriptor};
use proto_desc::message::MessageDesc;
use proto_desc::name_kind::NameKind;
use proto_desc::service::ServiceDesc;
use proto_desc::{DeclaredName, Declares, narrow};
use proto_links::FileId;
use std::alloc::{AllocError, Global};

/// Puts elements that declare their own names alone, in the scope whose entry stands at a position; without one, in no scope.
fn put_members<D: Declares>(
    entries: &mut Entries,
    file: u32,
    scope: Option<u32>,
    members: &[D],
) -> Result<(), AllocError>
    requires { IsScopeAmong entries.old scope }
    ensures { OnOk result (entries.new ≡ entries.old ++ map (declared_occurrence file)
        (map (D.declared (scope_name entries.old scope)) members.now)) }
{
    for member in members {
        let DeclaredName { name, place, kind } = member.declared_name();
        entries.push(scope, name, Location { file, place }, Some(kind))?;
    }
    Ok(())
}

/// What declares names, its own among them.
trait Collect {
    ghost use Rattle.std.specs.Prelude.{◌≡◌, ◌++◌, ℕ, List, OnOk, map};
    ghost use Rattle.proto_desc.specs.DeclaredNames.{Declared};
    ghost use Rattle.proto_names.specs.Entries.{IsScopeAmong, scope_name};
    ghost use Rattle.proto_names.specs.Occurrences.{declared_occurrence};

    /// These names, in a scope.
    ghost declares: { List ℕ → Self → List Declared };

    /// Puts these names behind the others, in the scope whose entry stands at a position; without one, in no scope.
    fn put(&self, entries: &mut Entries, file: u32, scope: Option<u32>) -> Result<(), AllocError>
        requires { IsScopeAmong entries.old scope }
        ensures { OnOk result (entries.new ≡ entries.old
            ++ map (declared_occurrence file) (declares (scope_name entries.old scope) self.now)) };
}

/// Puts what elements declare, one after the other.
fn put_each<C: Collect>(
    entries: &mut Entries,
    file: u32,
    scope: Option<u32>,
    elements: &[C],
) -> Result<(), AllocError>
    requires { IsScopeAmong entries.old scope }
    ensures { OnOk result (entries.new ≡ entries.old ++ map (declared_occurrence file)
        (flat_map (C.declares (scope_name entries.old scope)) elements.now)) }
{
    for element in elements {
        element.put(entries, file, scope)?;
    }
    Ok(())
}

/// An enum and its values, which stand beside the enum, in its scope.
impl Collect for EnumDesc<'_> {
    ghost declares = { declared_by_enum };

    fn put(&self, entries: &mut Entries, file: u32, scope: Option<u32>) -> Result<(), AllocError> {
        let place = self.place;
        let location = Location { file, place };
        entries.push(scope, self.name.as_str(), location, Some(NameKind::Enum))?;
        put_members(entries, file, scope, self.values.as_slice())
    }
}

/// A service and its methods, which stand in the service.
impl Collect for ServiceDesc<'_> {
    ghost declares = { declared_by_service };

    fn put(&self, entries: &mut Entries, file: u32, scope: Option<u32>) -> Result<(), AllocError> {
        let place = self.place;
        let location = Location { file, place };
        let inside = entries.push(scope, self.name.as_str(), location, Some(NameKind::Service))?;
        put_members(entries, file, inside, self.methods.as_slice())
    }
}

/// Puts a message and all that stands in it.
fn put_message(
    entries: &mut Entries,
    file: u32,
    scope: Option<u32>,
    message: &MessageDesc,
) -> Result<(), AllocError>
    requires { IsScopeAmong entries.old scope }
    ensures { OnOk result (entries.new ≡ entries.old ++ map (declared_occurrence file)
        (declared_by_message message.now (scope_name entries.old scope))) }
{
    let place = message.place;
    let location = Location { file, place };
    let inside = entries.push(
        scope,
        message.name.as_str(),
        location,
        Some(NameKind::Message),
    )?;
    put_members(entries, file, inside, message.fields.as_slice())?;
    put_members(entries, file, inside, message.oneofs.as_slice())?;
    put_each(entries, file, inside, message.enums.as_slice())?;
    for nested in message.nested.as_slice() {
        put_message(entries, file, inside, nested)?;
    }
    Ok(())
}

impl Collect for MessageDesc<'_> {
    ghost declares = { λ scope message. declared_by_message message scope };

    fn put(&self, entries: &mut Entries, file: u32, scope: Option<u32>) -> Result<(), AllocError> {
        put_message(entries, file, scope, self)
    }
}

/// Puts a file's package, which is the scope of what the file declares.
fn put_package(
    entries: &mut Entries,
    file: u32,
    package: &Option<PackageDescriptor>,
) -> Result<Option<u32>, AllocError>
    ensures put { OnOk result (entries.new ≡ entries.old ++ package_occurrences file «package».now) }
    ensures scope { IfOk result (IsScopeAmong entries.new) }
    ensures named { IfOk result (λ scope. scope_name entries.new scope ≡ file_scope «package».now) }
{
    let Some(package) = package else {
        return Ok(None);
    };
    let place = package.place;
    entries.push_package(package.name.as_str(), Location { file, place })
}

/// Puts what a file declares, but for its package.
fn put_declared(
    entries: &mut Entries,
    file: u32,
    scope: Option<u32>,
    desc: &FileDesc,
) -> Result<(), AllocError>
    requires { IsScopeAmong entries.old scope }
    ensures { OnOk result (entries.new ≡ entries.old ++ map (declared_occurrence file)
        (declared_in (scope_name entries.old scope) desc.now)) }
{
    put_each(entries, file, scope, desc.messages.as_slice())?;
    put_each(entries, file, scope, desc.enums.as_slice())?;
    put_each(entries, file, scope, desc.services.as_slice())
}

fn put_file(entries: &mut Entries, file: u32, desc: &FileDesc) -> Result<(), AllocError>
    ensures { OnOk result (entries.new ≡ entries.old ++ occurrences_of file desc.now) }
{
    let scope = put_package(entries, file, &desc.package)?;
    put_declared(entries, file, scope, desc)
}

/// The occurrences in files, the first of which has this position, or none where they are more than the limit. They are
/// counted after each file, so memory holds no more than the limit and those of one file.
pub(crate) fn collect_files(
    alloc: Global,
    first: FileId,
    files: &[FileDesc],
    limit: u64,
) -> Result<Option<Entries>, AllocError>
    requires { first + length files.now < 2 ^ 64 }
    ensures { IfOk result (IsCollected limit first files.now) }
{
    let mut entries = Entries::new(alloc);
    for (k, desc) in files.iter().enumerate() {
        put_file(&mut entries, narrow(first + k)?, desc)?;
        if entries.len() as u64 > limit {
            return Ok(None);
        }
    }
    Ok(Some(entries))
}
