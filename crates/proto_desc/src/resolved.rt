//! Whether the names of types are resolved.

ghost use Rattle.std.specs.Prelude.{◌≡◌};
ghost use Rattle.proto_desc.specs.Resolved.{reference_resolved, field_resolved, fields_resolved, message_resolved, method_resolved, service_resolved, services_resolved, file_resolved};

use crate::field::{FieldDesc, FieldKind};
use crate::file::FileDesc;
use crate::message::MessageDesc;
use crate::service::{MethodDesc, ServiceDesc};
use crate::type_name::TypeReference;

fn reference_resolved(reference: &TypeReference) -> bool
    ensures { result ≡ reference_resolved reference.now }
{
    matches!(reference, TypeReference::Resolved { .. })
}

fn field_resolved(field: &FieldDesc) -> bool
    ensures { result ≡ field_resolved field.now }
{
    match &field.field_type {
        FieldKind::Scalar(_) => true,
        FieldKind::Named(reference) => reference_resolved(reference),
    }
}

fn method_resolved(method: &MethodDesc) -> bool
    ensures { result ≡ method_resolved method.now }
{
    reference_resolved(&method.input) && reference_resolved(&method.output)
}

fn service_resolved(service: &ServiceDesc) -> bool
    ensures { result ≡ service_resolved service.now }
{
    service.methods.as_slice().iter().all(method_resolved)
}

fn services_resolved(services: &[ServiceDesc]) -> bool
    ensures { result ≡ services_resolved services.now }
{
    services.iter().all(service_resolved)
}

fn fields_resolved(fields: &[FieldDesc]) -> bool
    ensures { result ≡ fields_resolved fields.now }
{
    fields.iter().all(field_resolved)
}

fn message_resolved(message: &MessageDesc) -> bool
    ensures { result ≡ message_resolved message.now }
{
    if !fields_resolved(message.fields.as_slice()) {
        return false;
    }
    for nested in message.nested.as_slice() {
        if !message_resolved(nested) {
            return false;
        }
    }
    true
}

/// Whether each type name is resolved: those of the fields of messages, at each depth, and of methods.
pub fn is_resolved(file: &FileDesc) -> bool
    ensures { result ≡ file_resolved file.now }
{
    for message in file.messages.as_slice() {
        if !message_resolved(message) {
            return false;
        }
    }
    services_resolved(file.services.as_slice())
}
