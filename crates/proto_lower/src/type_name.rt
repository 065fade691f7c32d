//! Types of fields and methods, by name as the source spells it (proto3 language specification, "Fields", "Map field").

ghost use Rattle.std.specs.Prelude.{◌≡◌, IfOk};
ghost use Rattle.proto_lower.specs.Fields.{type_place, reference_of, kind_of};
ghost use Rattle.proto_tree.specs.KeyTypes.{scalar_of_key};

use proto_base::Place;
use proto_base::scalar_type::{KeyType, ScalarType};
use proto_desc::field::FieldKind;
use proto_desc::type_name::TypeReference;
use proto_tree::text::spelled;
use proto_tree::{FieldType, TypeName};
use std::alloc::{AllocError, Global};

fn type_place(name: &TypeName) -> Place
    ensures { result ≡ type_place name.now.dot name.now.name }
{
    match name.dot {
        Some(dot) => dot.start,
        None => name.name.first.span.start,
    }
}

/// The name of a type.
pub(crate) fn type_reference<'s>(
    alloc: Global,
    name: &TypeName<'s>,
) -> Result<TypeReference<'s>, AllocError>
    ensures { IfOk result (λ reference. reference ≡ reference_of name.now) }
{
    Ok(TypeReference::Spelled {
        text: spelled(alloc, name)?,
        place: type_place(name),
    })
}

/// The type of a field.
pub(crate) fn field_kind<'s>(
    alloc: Global,
    field_type: &FieldType<'s>,
) -> Result<FieldKind<'s>, AllocError>
    ensures { IfOk result (λ kind. kind ≡ kind_of field_type.now) }
{
    match field_type {
        FieldType::Scalar(scalar, _) => Ok(FieldKind::Scalar(*scalar)),
        FieldType::Named(name) => Ok(FieldKind::Named(type_reference(alloc, name)?)),
    }
}

/// The type of a map's keys as the type of a field.
pub(crate) fn scalar_of_key(key: KeyType) -> ScalarType
    ensures { result ≡ scalar_of_key key }
{
    match key {
        KeyType::Int32 => ScalarType::Int32,
        KeyType::Int64 => ScalarType::Int64,
        KeyType::Uint32 => ScalarType::Uint32,
        KeyType::Uint64 => ScalarType::Uint64,
        KeyType::Sint32 => ScalarType::Sint32,
        KeyType::Sint64 => ScalarType::Sint64,
        KeyType::Fixed32 => ScalarType::Fixed32,
        KeyType::Fixed64 => ScalarType::Fixed64,
        KeyType::Sfixed32 => ScalarType::Sfixed32,
        KeyType::Sfixed64 => ScalarType::Sfixed64,
        KeyType::Bool => ScalarType::Bool,
        KeyType::String => ScalarType::String,
    }
}
