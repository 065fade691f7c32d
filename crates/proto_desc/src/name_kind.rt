//! What a full name can name.

/// The kind of element that a name is declared for. A map entry is a message, and a oneof that is made is a oneof.
#[derive(Clone, Copy, Debug, PartialEq, Eq, PartialOrd, Ord, Hash)]
pub enum NameKind {
    Message,
    Field,
    Oneof,
    Enum,
    Value,
    Service,
    Method,
}
