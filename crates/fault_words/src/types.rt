//! What is said of types that are not found, or are enums where messages are wanted.

use crate::budget::{Budget, Nearest};
use crate::declared::{Declaration, Sink, full_name, put_file};
use crate::known::{Known, TYPES};
use crate::names::Declared;
use crate::words::{Other, Words};
use proto_base::{Fault, Kind, Place};
use proto_desc::field::FieldKind;
use proto_desc::file::FileDesc;
use proto_desc::message::MessageDesc;
use proto_desc::name_kind::NameKind;
use proto_desc::service::ServiceDesc;
use proto_desc::type_name::TypeReference;
use schema_failure::Shown;
use std::alloc::{AllocError, Global};
use std::collections::BTreeMap;

/// The name of a type as it is spelled, and the scope in which it is.
#[derive(Drop)]
pub(crate) struct Reference<'d> {
    scope: String,
    spelled: &'d str,
}

/// The types that a file spells, by their places.
pub(crate) type References<'d> = BTreeMap<Place, Reference<'d>>;

/// Messages, enums and packages by their full names: of each the first declaration.
pub(crate) type Types<'s> = BTreeMap<String, Declared<'s>>;

/// Takes in the messages, the enums and the packages of a file.
#[derive(Drop)]
struct TypeSink<'t, 's> {
    file: &'s str,
    types: &'t mut Types<'s>,
}

impl<'s> Sink for TypeSink<'_, 's> {
    fn take(&mut self, full: String, place: Place, what: Declaration) -> Result<(), AllocError> {
        match what {
            Declaration::Package
            | Declaration::Element(NameKind::Message)
            | Declaration::Element(NameKind::Enum) => {
                if !self.types.contains_key(&full) {
                    let at = Other {
                        file: self.file,
                        place,
                    };
                    self.types.insert(full, Declared { at, what })?;
                }
            }
            Declaration::Element(_) => {}
        }
        Ok(())
    }
}

/// All messages, enums and packages; none, where faults are of another pass.
pub(crate) fn types_of<'s>(alloc: Global, known: &Known<'_, 's>) -> Result<Types<'s>, AllocError> {
    let mut types = BTreeMap::new(alloc);
    if known.pass != TYPES {
        return Ok(types);
    }
    for (at, file) in known.files.iter().enumerate() {
        if let Some(desc) = known.desc_at(at) {
            let mut sink = TypeSink {
                file: file.name,
                types: &mut types,
            };
            put_file(alloc, desc, &mut sink)?;
        }
    }
    Ok(types)
}

/// Puts a reference that is spelled in a scope.
fn put_reference<'d>(
    alloc: Global,
    references: &mut References<'d>,
    scope: &str,
    reference: &'d TypeReference<'_>,
) -> Result<(), AllocError> {
    if let TypeReference::Spelled { place, text } = reference {
        let reference = Reference {
            scope: String::from_str(alloc, scope)?,
            spelled: text.as_str(),
        };
        references.insert(*place, reference)?;
    }
    Ok(())
}

/// Puts the types that a message spells, and those within it.
fn put_message<'d>(
    alloc: Global,
    references: &mut References<'d>,
    scope: &str,
    message: &'d MessageDesc<'_>,
) -> Result<(), AllocError> {
    let inner = full_name(alloc, scope, message.name.as_str())?;
    for field in message.fields.as_slice() {
        if let FieldKind::Named(reference) = &field.field_type {
            put_reference(alloc, references, inner.as_str(), reference)?;
        }
    }
    for nested in message.nested.as_slice() {
        put_message(alloc, references, inner.as_str(), nested)?;
    }
    Ok(())
}

/// Puts the types that a service spells.
fn put_service<'d>(
    alloc: Global,
    references: &mut References<'d>,
    scope: &str,
    service: &'d ServiceDesc<'_>,
) -> Result<(), AllocError> {
    let inner = full_name(alloc, scope, service.name.as_str())?;
    for method in service.methods.as_slice() {
        put_reference(alloc, references, inner.as_str(), &method.input)?;
        put_reference(alloc, references, inner.as_str(), &method.output)?;
    }
    Ok(())
}

/// The types that a file spells, by their places.
pub(crate) fn references_in<'d>(
    alloc: Global,
    desc: &'d FileDesc<'_>,
) -> Result<References<'d>, AllocError> {
    let mut references = BTreeMap::new(alloc);
    for message in desc.messages.as_slice() {
        put_message(alloc, &mut references, desc.scope(), message)?;
    }
    for service in desc.services.as_slice() {
        put_service(alloc, &mut references, desc.scope(), service)?;
    }
    Ok(references)
}

/// The scope around another, if there is one.
fn around(scope: &str) -> Option<&str> {
    match scope.rsplit_once('.') {
        Some((outer, _)) => Some(outer),
        None if scope.is_empty() => None,
        None => Some(""),
    }
}

/// A name without what stands before its last dot.
fn last_part(name: &str) -> &str {
    match name.rsplit_once('.') {
        Some((_, last)) => last,
        None => name,
    }
}

/// What a name was found to be on the way outwards from a scope.
#[derive(Drop)]
struct Found<'s> {
    full: String,
    declared: Declared<'s>,
    /// What stands nearer and has the first part of the name.
    nearer: Option<String>,
}

/// What a spelled name would be in a scope or in those around it, whoever declares it.
fn found_outwards<'s>(
    alloc: Global,
    types: &Types<'s>,
    reference: &Reference<'_>,
) -> Result<Option<Found<'s>>, AllocError> {
    let spelled = reference.spelled;
    let first = spelled.split('.').next().unwrap_or(spelled);
    let mut nearer = None;
    let mut scope = reference.scope.as_str();
    for _turn in 0..=reference.scope.len() {
        let full = full_name(alloc, scope, spelled)?;
        if let Some(declared) = types.get(&full) {
            return Ok(Some(Found {
                full,
                declared: *declared,
                nearer,
            }));
        }
        if nearer.is_none() && first.len() < spelled.len() {
            let near = full_name(alloc, scope, first)?;
            if types.contains_key(&near) {
                nearer = Some(near);
            }
        }
        let Some(outer) = around(scope) else {
            break;
        };
        scope = outer;
    }
    Ok(None)
}

/// The same of a name that may begin with a dot, and is then a full name.
fn found_for<'s>(
    alloc: Global,
    types: &Types<'s>,
    reference: &Reference<'_>,
) -> Result<Option<Found<'s>>, AllocError> {
    let Some(spelled) = reference.spelled.strip_prefix('.') else {
        return found_outwards(alloc, types, reference);
    };
    let full = String::from_str(alloc, spelled)?;
    Ok(
        types
            .get(&full)
            .map(|declared| *declared)
            .map(|declared| Found {
                full,
                declared,
                nearer: None,
            }),
    )
}

/// The type whose name without its scope is most like that of a spelled one.
fn nearest_type<'t>(
    alloc: Global,
    types: &'t Types<'_>,
    budget: &mut Budget,
    spelled: &str,
) -> Result<Option<&'t str>, AllocError> {
    if !budget.take(types.len()) {
        return Ok(None);
    }
    let mut nearest = Nearest::new();
    for (full, declared) in types.iter() {
        if declared.what != Declaration::Package {
            nearest.offer(
                alloc,
                last_part(spelled),
                last_part(full.as_str()),
                full.as_str(),
            )?;
        }
    }
    Ok(nearest.name)
}

/// What is said of a name that no scope around it has.
fn unknown_words<'s>(
    alloc: Global,
    types: &Types<'s>,
    budget: &mut Budget,
    spelled: &str,
) -> Result<Words<'s>, AllocError> {
    let Some(near) = nearest_type(alloc, types, budget, spelled)? else {
        return Ok(Words::alone(format!(in alloc; "nothing is called `{spelled}`")?));
    };
    let about = format!(in alloc; "nothing is called `{spelled}`; a similar name is `{near}`")?;
    let near = String::from_str(alloc, near)?;
    let other = types.get(&near).map(|declared| declared.at);
    Ok(Words { about, other })
}

/// What is said of a type that this file does not see.
fn unseen_words<'s>(alloc: Global, found: Found<'s>, file: &str) -> Result<Words<'s>, AllocError> {
    let at = found.declared.at;
    let full = found.full;
    let about = match found.nearer {
        Some(near) => format!(in alloc;
            "`{near}` is nearer and has no such type; `.{full}` names the other one"
        )?,
        None => format!(in alloc;
            "`{full}` is declared in {}, which {} does not import",
            Shown(at.file),
            Shown(file)
        )?,
    };
    Ok(Words {
        about,
        other: Some(at),
    })
}

/// What is said of a type that was not found.
fn not_found_words<'s>(
    alloc: Global,
    types: &Types<'s>,
    budget: &mut Budget,
    reference: &Reference<'_>,
    file: &str,
) -> Result<Words<'s>, AllocError> {
    match found_for(alloc, types, reference)? {
        Some(found) if found.declared.what == Declaration::Package => {
            let full = found.full;
            Ok(Words {
                about: format!(in alloc; "`{full}` is a package")?,
                other: Some(found.declared.at),
            })
        }
        Some(found) => unseen_words(alloc, found, file),
        None => unknown_words(alloc, types, budget, reference.spelled),
    }
}

/// What is said of an enum where a message is wanted.
fn enum_words<'s>(
    alloc: Global,
    types: &Types<'s>,
    reference: &Reference<'_>,
) -> Result<Option<Words<'s>>, AllocError> {
    let Some(found) = found_for(alloc, types, reference)? else {
        return Ok(None);
    };
    let full = found.full;
    Ok(Some(Words {
        about: format!(in alloc; "`{full}` is an enum")?,
        other: Some(found.declared.at),
    }))
}

/// What is said of a fault of a type, which is spelled so.
pub(crate) fn type_words<'s>(
    alloc: Global,
    types: &Types<'s>,
    budget: &mut Budget,
    reference: Option<&Reference<'_>>,
    fault: &Fault,
) -> Result<Option<Words<'s>>, AllocError> {
    let Some(reference) = reference else {
        return Ok(None);
    };
    match fault.kind {
        Kind::TypeNotFound => {
            let words = not_found_words(alloc, types, budget, reference, fault.file.as_str())?;
            Ok(Some(words))
        }
        Kind::TypeNotMessage => enum_words(alloc, types, reference),
        _ => Ok(None),
    }
}
