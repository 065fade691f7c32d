//! Types by name (`FieldDescriptorProto.Type`, `type_name`).

ghost use Rattle.std.specs.Prelude.{◌≡◌, ◌≤◌, length};
ghost use Rattle.wire_bytes.specs.Descriptor.{type_kind_number, reference_number, reference_text};

use crate::backward::{Backward, Payload};
use proto_desc::absolute_name::AbsoluteName;
use proto_desc::type_name::{TypeKind, TypeReference};
use std::alloc::AllocError;

fn kind_number(kind: TypeKind) -> u64
    ensures { result ≡ type_kind_number kind }
{
    match kind {
        TypeKind::Message => 11,
        TypeKind::Enum => 14,
    }
}

/// The number of the type that a name means. A name that is not resolved counts as a message's.
pub(super) fn reference_number(reference: &TypeReference) -> u64
    ensures { result ≡ reference_number reference.now }
{
    match reference {
        TypeReference::Spelled { .. } => 11,
        TypeReference::Resolved { kind, .. } => kind_number(*kind),
    }
}

impl Payload for AbsoluteName {
    ghost bytes = { λ full. full };

    fn prepend_to(&self, out: &mut Backward) -> Result<(), AllocError> {
        let (scope, name) = self.parts();
        out.prepend_bytes(name.as_bytes())?;
        out.prepend_bytes(".".as_bytes())?;
        out.prepend_bytes(scope.as_bytes())
    }
}

/// The full name, or the name as spelled if it is not resolved.
impl<'s> Payload for TypeReference<'s> {
    ghost bytes = { reference_text };

    fn prepend_to(&self, out: &mut Backward) -> Result<(), AllocError> {
        match self {
            TypeReference::Spelled { text, .. } => text.prepend_to(out),
            TypeReference::Resolved { full_name, .. } => full_name.prepend_to(out),
        }
    }
}

/// How many bytes the full name, or the name as spelled, has at least.
pub(super) fn reference_len(reference: &TypeReference) -> usize
    ensures { result ≤ length (reference_text reference.now) }
{
    match reference {
        TypeReference::Spelled { text, .. } => text.as_str().len(),
        TypeReference::Resolved { full_name, .. } => {
            let (scope, name) = full_name.parts();
            scope.len().saturating_add(name.len()).saturating_add(1)
        }
    }
}
