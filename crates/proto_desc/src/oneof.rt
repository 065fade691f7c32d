//! Oneofs (`OneofDescriptorProto`).

use proto_base::Place;
use proto_base::text::Text;

/// A oneof of the source, or the one that an `optional` field makes, which stands at the field's name.
#[derive(Drop)]
pub struct OneofDesc<'s> {
    pub name: Text<'s>,
    pub place: Place,
}
