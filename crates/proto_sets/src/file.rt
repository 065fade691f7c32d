//! What the bytes of a file declare.

ghost use Rattle.std.specs.Prelude.{◌≡◌, ◌++◌, Err, IfOk, List, OnOk, map};
ghost use Rattle.std.specs.List.{filter_map};
ghost use Rattle.proto_desc.specs.DeclaredNames.{file_scope};
ghost use Rattle.proto_names.specs.Entries.{IsScopeAmong, scope_name};
ghost use Rattle.proto_names.specs.Occurrences.{package_occurrences};
ghost use Rattle.proto_sets.specs.Says.{Said, said_extension, said_occurrence};
ghost use Rattle.proto_sets.specs.SaysSteps.{extension_of};
ghost use Rattle.proto_sets.specs.Sets.{Contents, SaysFile};
ghost use Rattle.proto_sets.specs.declared.error.ReadError.TheVariants as errors;

use crate::error::{ReadError, fields_in};
use crate::head::read_head;
use crate::walking::{Found, put_all};
use proto_desc::file::{FileDesc, PackageDescriptor};
use proto_names::{Entries, Location};
use std::alloc::{AllocError, Global};

/// Puts a file's package, which is the scope of what the file declares.
fn put_package(
    names: &mut Entries,
    file: u32,
    package: &Option<PackageDescriptor>,
) -> Result<Option<u32>, AllocError>
    ensures put { OnOk result (names.new ≡ names.old ++ package_occurrences file «package».now) }
    ensures scope { IfOk result (IsScopeAmong names.new) }
    ensures named { IfOk result (λ scope. scope_name names.new scope ≡ file_scope «package».now) }
{
    let Some(package) = package else {
        return Ok(None);
    };
    let place = package.place;
    names.push_package(package.name.as_str(), Location { file, place })
}

/// Puts what the bytes of a file declare, and gives its head.
pub(crate) fn put_file<'b>(
    alloc: Global,
    found: &mut Found<'b>,
    file: u32,
    bytes: &'b [u8],
    depth: u64,
) -> Result<FileDesc<'b>, ReadError>
    ensures put { IfOk result (λ head. (said : List Said)
        × SaysFile depth bytes.now (record { head = head; said = said })
        × (found.new.names ≡ found.old.names ++ package_occurrences file head.«package»
        ++ map (said_occurrence file) said)
        × (map extension_of found.new.extensions.items
        ≡ map extension_of found.old.extensions.items ++ filter_map (said_extension file) said)) }
    ensures malformed { result ≡ Err errors.Malformed → (contents : Contents)
        → SaysFile depth bytes.now contents → ⊥ }
{
    let fields = fields_in(alloc, bytes)?;
    let head = read_head(alloc, &fields)?;
    let scope = put_package(&mut found.names, file, &head.package)?;
    put_all(alloc, found, file, scope, None, &fields, depth)?;
    Ok(head)
}
