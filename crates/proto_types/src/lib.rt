//! Types: the meanings of the names of types that a file spells.
//!
//! The standard is the proto3 language guide, "Packages and Name Resolution".
#![tactic(auto)]

mod filling;
mod finder;
mod found;
mod known_scopes;
mod meaning;
mod names;
mod recalled;
mod typing;

pub use meaning::NamedType;
pub use typing::{fill_types, resolve_types, type_faults, typing_is_unique};
