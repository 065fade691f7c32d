//! Services (`ServiceDescriptorProto`, `MethodDescriptorProto`).

use crate::options::OptionDescriptor;
use crate::type_name::TypeReference;
use proto_base::Place;
use proto_base::row::Row;
use proto_base::text::Text;

/// A method of a service.
#[derive(Drop)]
pub struct MethodDesc<'s> {
    pub name: Text<'s>,
    pub place: Place,
    pub input: TypeReference<'s>,
    pub output: TypeReference<'s>,
    pub options: Row<OptionDescriptor<'s>>,
    pub client_streaming: bool,
    pub server_streaming: bool,
}

/// A service.
#[derive(Drop)]
pub struct ServiceDesc<'s> {
    pub name: Text<'s>,
    pub place: Place,
    pub methods: Row<MethodDesc<'s>>,
    pub options: Row<OptionDescriptor<'s>>,
}
