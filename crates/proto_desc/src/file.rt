//! Files (`FileDescriptorProto`).

ghost use Rattle.std.specs.Prelude.{◌≡◌};
ghost use Rattle.proto_desc.specs.DeclaredNames.{file_scope};

use crate::enumeration::EnumDesc;
use crate::message::MessageDesc;
use crate::options::OptionDescriptor;
use crate::service::ServiceDesc;
use proto_base::Place;
use proto_base::row::Row;
use proto_base::text::Text;

/// The package of a file: its parts with dots between them, at the first part.
#[derive(Drop)]
pub struct PackageDescriptor<'s> {
    pub name: Text<'s>,
    pub place: Place,
}

/// An import: the path that it names, at its first string.
#[derive(Drop)]
pub struct ImportDescriptor<'s> {
    pub path: Text<'s>,
    pub place: Place,
    pub is_public: bool,
}

/// A file. Of several package statements the first counts.
#[derive(Drop)]
pub struct FileDesc<'s> {
    pub name: Text<'s>,
    pub package: Option<PackageDescriptor<'s>>,
    pub imports: Row<ImportDescriptor<'s>>,
    pub messages: Row<MessageDesc<'s>>,
    pub enums: Row<EnumDesc<'s>>,
    pub services: Row<ServiceDesc<'s>>,
    pub options: Row<OptionDescriptor<'s>>,
}

impl FileDesc<'_> {
    /// The scope of what stands at the top of the file: the name of its package, or nothing (language guide,
    /// "Packages and Name Resolution").
    pub fn scope(&self) -> &str
        ensures { result.now ≡ file_scope self.now.«package» }
    {
        match &self.package {
            Some(package) => package.name.as_str(),
            None => "",
        }
    }
}
