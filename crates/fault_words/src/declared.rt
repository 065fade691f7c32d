//! The names that a file declares, each by its full name.

use proto_base::Place;
use proto_desc::Declares;
use proto_desc::enumeration::EnumDesc;
use proto_desc::file::FileDesc;
use proto_desc::message::MessageDesc;
use proto_desc::name_kind::NameKind;
use proto_desc::service::ServiceDesc;
use std::alloc::{AllocError, Global};

/// What a name is declared for.
#[derive(Clone, Copy, PartialEq, Eq)]
pub(crate) enum Declaration {
    Package,
    Element(NameKind),
}

impl Declaration {
    /// What it is, in words.
    pub(crate) fn name(self) -> &'static str {
        match self {
            Declaration::Package => "a package",
            Declaration::Element(NameKind::Message) => "a message",
            Declaration::Element(NameKind::Field) => "a field",
            Declaration::Element(NameKind::Oneof) => "a oneof",
            Declaration::Element(NameKind::Enum) => "an enum",
            Declaration::Element(NameKind::Value) => "a value of an enum",
            Declaration::Element(NameKind::Service) => "a service",
            Declaration::Element(NameKind::Method) => "a method",
        }
    }
}

/// What takes in the names that a file declares.
pub(crate) trait Sink {
    fn take(&mut self, full: String, place: Place, what: Declaration) -> Result<(), AllocError>;
}

/// A name behind its scope.
pub(crate) fn full_name(alloc: Global, scope: &str, name: &str) -> Result<String, AllocError> {
    if scope.is_empty() {
        String::from_str(alloc, name)
    } else {
        format!(in alloc; "{scope}.{name}")
    }
}

fn put_members<D: Declares, S: Sink>(
    alloc: Global,
    scope: &str,
    members: &[D],
    sink: &mut S,
) -> Result<(), AllocError> {
    for member in members {
        let declared = member.declared_name();
        let full = full_name(alloc, scope, declared.name)?;
        sink.take(full, declared.place, Declaration::Element(declared.kind))?;
    }
    Ok(())
}

/// Puts an enum and its values, which stand beside it.
fn put_enum<S: Sink>(
    alloc: Global,
    scope: &str,
    declared: &EnumDesc,
    sink: &mut S,
) -> Result<(), AllocError> {
    let full = full_name(alloc, scope, declared.name.as_str())?;
    sink.take(full, declared.place, Declaration::Element(NameKind::Enum))?;
    put_members(alloc, scope, declared.values.as_slice(), sink)
}

fn put_enums<S: Sink>(
    alloc: Global,
    scope: &str,
    enums: &[EnumDesc],
    sink: &mut S,
) -> Result<(), AllocError> {
    for declared in enums {
        put_enum(alloc, scope, declared, sink)?;
    }
    Ok(())
}

/// Puts a message and all that stands in it.
fn put_message<S: Sink>(
    alloc: Global,
    scope: &str,
    message: &MessageDesc,
    sink: &mut S,
) -> Result<(), AllocError> {
    let name = message.name.as_str();
    let own = full_name(alloc, scope, name)?;
    sink.take(own, message.place, Declaration::Element(NameKind::Message))?;
    let inner = full_name(alloc, scope, name)?;
    put_members(alloc, inner.as_str(), message.fields.as_slice(), sink)?;
    put_members(alloc, inner.as_str(), message.oneofs.as_slice(), sink)?;
    put_enums(alloc, inner.as_str(), message.enums.as_slice(), sink)?;
    for nested in message.nested.as_slice() {
        put_message(alloc, inner.as_str(), nested, sink)?;
    }
    Ok(())
}

fn put_service<S: Sink>(
    alloc: Global,
    scope: &str,
    service: &ServiceDesc,
    sink: &mut S,
) -> Result<(), AllocError> {
    let name = service.name.as_str();
    let own = full_name(alloc, scope, name)?;
    sink.take(own, service.place, Declaration::Element(NameKind::Service))?;
    let inner = full_name(alloc, scope, name)?;
    put_members(alloc, inner.as_str(), service.methods.as_slice(), sink)
}

/// Puts a package and those around it.
fn put_packages<S: Sink>(
    alloc: Global,
    package: &str,
    place: Place,
    sink: &mut S,
) -> Result<(), AllocError> {
    let mut scope = String::new(alloc);
    for part in package.split('.') {
        scope = full_name(alloc, scope.as_str(), part)?;
        let full = String::from_str(alloc, scope.as_str())?;
        sink.take(full, place, Declaration::Package)?;
    }
    Ok(())
}

/// Puts all names that a file declares.
pub(crate) fn put_file<S: Sink>(
    alloc: Global,
    desc: &FileDesc,
    sink: &mut S,
) -> Result<(), AllocError> {
    if let Some(package) = &desc.package {
        put_packages(alloc, package.name.as_str(), package.place, sink)?;
    }
    for message in desc.messages.as_slice() {
        put_message(alloc, desc.scope(), message, sink)?;
    }
    put_enums(alloc, desc.scope(), desc.enums.as_slice(), sink)?;
    for service in desc.services.as_slice() {
        put_service(alloc, desc.scope(), service, sink)?;
    }
    Ok(())
}
