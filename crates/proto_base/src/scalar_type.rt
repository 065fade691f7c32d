//! The scalar types, of which trees and descriptors both speak (proto3 language specification,
//! "Fields", and "Map field" for the types of keys).

/// A scalar type.
#[derive(Clone, Copy, PartialEq, Eq)]
pub enum ScalarType {
    Double,
    Float,
    Int32,
    Int64,
    Uint32,
    Uint64,
    Sint32,
    Sint64,
    Fixed32,
    Fixed64,
    Sfixed32,
    Sfixed64,
    Bool,
    String,
    Bytes,
}

/// The type of a map's key: any scalar type but `double`, `float` and `bytes`.
#[derive(Clone, Copy)]
pub enum KeyType {
    Int32,
    Int64,
    Uint32,
    Uint64,
    Sint32,
    Sint64,
    Fixed32,
    Fixed64,
    Sfixed32,
    Sfixed64,
    Bool,
    String,
}
