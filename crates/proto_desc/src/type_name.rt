//! Names of types (`FieldDescriptorProto.type_name`, language guide, "Packages and Name Resolution").

use crate::absolute_name::AbsoluteName;
use proto_base::Place;
use proto_base::text::Text;

/// What a type name means.
#[derive(Clone, Copy, PartialEq, Eq)]
pub enum TypeKind {
    Message,
    Enum,
}

/// The name of a message or an enum. What is small stands first, beside the number that tells the variants apart.
#[derive(Drop)]
pub enum TypeReference<'s> {
    /// As the source spells it, with its dots, at its first token.
    Spelled {
        place: Place,
        text: Text<'s>,
    },
    /// By its full name.
    Resolved {
        kind: TypeKind,
        full_name: AbsoluteName,
    },
}
