//! Files (`FileDescriptorProto`).

ghost use Rattle.std.specs.Prelude.{◌≡◌, ◌<◌, ◌≤◌, ◌++◌, IfOk, MatchOption, OnOk, codes, length, true};
ghost use Rattle.proto_desc.specs.Resolved.{file_resolved};
ghost use Rattle.wire_bytes.specs.Descriptor.{file_desc_bytes, package_name, public_fields, text_field};
ghost use Rattle.wire_format.specs.Field.{bytes_field};

use crate::backward::{Backward, Payload};
use crate::descriptor::least_len::least_file_len;
use crate::descriptor::options::prepend_options;
use proto_base::row::Row;
use proto_base::text::Text;
use proto_desc::enumeration::EnumDesc;
use proto_desc::file::{FileDesc, ImportDescriptor, PackageDescriptor};
use proto_desc::message::MessageDesc;
use proto_desc::service::ServiceDesc;
use std::alloc::{AllocError, Global};

/// An import as a dependency is its path.
impl<'s> Payload for ImportDescriptor<'s> {
    ghost bytes = { λ import. import.path };

    fn prepend_to(&self, out: &mut Backward) -> Result<(), AllocError> {
        self.path.prepend_to(out)
    }
}

fn prepend_package(
    out: &mut Backward,
    package: &Option<PackageDescriptor>,
) -> Result<(), AllocError>
    ensures { OnOk result (out.new ≡ text_field 2 (package_name «package».now) ++ out.old) }
{
    match package {
        Some(package) => out.prepend_field(2, &package.name),
        None => Ok(()),
    }
}

/// Writes the positions of the public imports among the imports.
fn prepend_public(out: &mut Backward, imports: &Row<ImportDescriptor>) -> Result<(), AllocError>
    ensures { OnOk result (out.new ≡ public_fields 0 imports.now ++ out.old) }
{
    let imports = imports.as_slice();
    for position in (0..imports.len()).rev() {
        if imports[position].is_public {
            out.prepend_number(10, position as u64)?;
        }
    }
    Ok(())
}

fn prepend_syntax(out: &mut Backward) -> Result<(), AllocError>
    ensures { OnOk result (out.new ≡ bytes_field 12 (codes "proto3") ++ out.old) }
{
    out.prepend_field(12, &Text::borrowed("proto3"))
}

fn prepend_file(out: &mut Backward, file: &FileDesc) -> Result<(), AllocError>
    ensures { OnOk result (out.new ≡ file_desc_bytes file.now ++ out.old) }
{
    prepend_syntax(out)?;
    prepend_public(out, &file.imports)?;
    prepend_options(out, 8, &file.options)?;
    out.prepend_fields(6, &file.services)?;
    out.prepend_fields(5, &file.enums)?;
    out.prepend_fields(4, &file.messages)?;
    out.prepend_fields(3, &file.imports)?;
    prepend_package(out, &file.package)?;
    out.prepend_field(1, &file.name)
}

/// Room for what one element takes, such as a field with two names of twenty bytes.
const ELEMENT_ROOM: usize = 64;

/// How many enums there are, and values in them.
fn enum_elements(enums: &Row<EnumDesc>) -> usize {
    let mut elements = enums.len();
    for declared in enums.as_slice() {
        elements = elements.saturating_add(declared.values.len());
    }
    elements
}

/// How many services there are, and methods in them.
fn service_elements(services: &Row<ServiceDesc>) -> usize {
    let mut elements = services.len();
    for service in services.as_slice() {
        elements = elements.saturating_add(service.methods.len());
    }
    elements
}

/// How many messages there are, with the fields, enums and messages in them.
fn message_elements(messages: &Row<MessageDesc>) -> usize {
    let mut elements = messages.len();
    for message in messages.as_slice() {
        elements = elements
            .saturating_add(message.fields.len())
            .saturating_add(enum_elements(&message.enums))
            .saturating_add(message_elements(&message.nested));
    }
    elements
}

/// About how many bytes a file takes: so many for itself, each import, and each element that it declares, at whatever
/// depth. Where it falls short the buffer grows.
fn expected_len(file: &FileDesc) -> usize {
    file.imports
        .len()
        .saturating_add(1)
        .saturating_add(message_elements(&file.messages))
        .saturating_add(enum_elements(&file.enums))
        .saturating_add(service_elements(&file.services))
        .saturating_mul(ELEMENT_ROOM)
}

/// The bytes of a file's descriptor (`descriptor.proto`, `FileDescriptorProto`): its fields by rising number, and in it
/// those of each message. All type names are resolved, as `proto_desc::is_resolved` tests. It fails only for want of memory.
pub fn file_bytes(alloc: Global, file: &FileDesc) -> Result<Vec<u8>, AllocError>
    requires { file_resolved file.now ≡ true }
    ensures { IfOk result (λ bytes. bytes.items ≡ file_desc_bytes file.now) }
{
    let mut out = Backward::with_room(alloc, expected_len(file))?;
    prepend_file(&mut out, file)?;
    out.into_vec()
}

/// The bytes of a file's descriptor, as `file_bytes` gives them, if there are at most `most` of them. Where the names of
/// types alone are more, nothing is written. All type names are resolved. It fails only for want of memory.
pub fn file_bytes_within(
    alloc: Global,
    file: &FileDesc,
    most: u64,
) -> Result<Option<Vec<u8>>, AllocError>
    requires { file_resolved file.now ≡ true }
    ensures { IfOk result (λ found. MatchOption found (most < length (file_desc_bytes file.now))
        (λ bytes. (bytes.items ≡ file_desc_bytes file.now)
        × (length (file_desc_bytes file.now) ≤ most))) }
{
    if least_file_len(file) as u64 > most {
        return Ok(None);
    }
    let bytes = file_bytes(alloc, file)?;
    if bytes.len() as u64 > most {
        return Ok(None);
    }
    Ok(Some(bytes))
}
