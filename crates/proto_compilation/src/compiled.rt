//! A compilation.

ghost use Rattle.std.specs.Prelude.{◌≡◌, ℕ, ◌<◌, ◌≤◌, IfOk, IfSome, MatchOption, flat_map, length, map};
ghost use Rattle.proto_base.specs.Limits.{limit_of};
ghost use Rattle.proto_base.specs.declared.limits.Limit.TheVariants.{SetBytes};
ghost use Rattle.proto_compilation.specs.Compilation.{IsNamed, bytes_at, set_of};
ghost use Rattle.proto_compilation.specs.Parts.{compilation, declared_extension, extended};
ghost use Rattle.proto_compilation.specs.Sound.{IsCoherent, IsSound};
ghost use Rattle.proto_links.specs.Linked.{count_of, reach_of};
ghost use Rattle.wire_format.specs.Field.{bytes_field};

use crate::extension::Extension;
use crate::set::{set_bytes, set_len};
use crate::table::FileTable;
use proto_base::{Limit, Limits};
use proto_links::{FileId, Links};
use proto_names::NameIndex;
use std::alloc::{AllocError, Global};
use std::marker::Model;

/// The descriptors of a list of files, with what answers about them. Contracts see it as its files in the order of their
/// names, each with the bytes of its descriptor, their links, the index of their names, their extensions, and the limits.
#[derive(Drop)]
pub struct Compiled {
    pub(crate) files: FileTable,
    pub(crate) links: Links,
    pub(crate) index: NameIndex,
    pub(crate) extensions: Vec<Extension>,
    pub(crate) limits: Limits,
    /// How many bytes the set has.
    pub(crate) set_len: usize,
    ghost measured: { set_len ≡ length (set_of files links) },
}

impl Model for Compiled {
    ghost use Rattle.proto_compilation.specs.Compilation.{Compilation};
    ghost use Rattle.std.specs.Prelude.{map};
    ghost use Rattle.proto_compilation.specs.Parts.{declared_extension, extended};
    ghost use Rattle.proto_compilation.specs.Sound.{IsSound};

    ghost Value = { Compilation };

    ghost view = { λ compiled. extended compiled.limits compiled.files compiled.links compiled.index
        (map declared_extension compiled.extensions.items) };

    ghost invariant = { λ compiled. IsSound (extended compiled.limits compiled.files compiled.links compiled.index
        (map declared_extension compiled.extensions.items)) };
}

impl Compiled {
    /// The compilation of these, which have no extensions, or none where their set has more bytes than the limit.
    pub fn new(
        alloc: Global,
        files: FileTable,
        links: Links,
        index: NameIndex,
        limits: &Limits,
    ) -> Option<Compiled>
        requires { IsCoherent (compilation limits.now files links index) }
        ensures { MatchOption result (limit_of limits.now SetBytes < length (set_of files links))
            (λ compiled. compiled ≡ compilation limits.now files links index) }
    {
        Compiled::with_extensions(files, links, index, Vec::new(alloc), limits)
    }

    /// The compilation of these with these extensions, or none where their set has more bytes than the limit.
    pub fn with_extensions(
        files: FileTable,
        links: Links,
        index: NameIndex,
        extensions: Vec<Extension>,
        limits: &Limits,
    ) -> Option<Compiled>
        requires { IsCoherent (extended limits.now files links index
            (map declared_extension extensions.items)) }
        ensures { MatchOption result (limit_of limits.now SetBytes < length (set_of files links))
            (λ compiled. compiled ≡ extended limits.now files links index
            (map declared_extension extensions.items)) }
    {
        let set_len = set_len(&files, &links, limits.get(Limit::SetBytes))? as usize;
        Some(Compiled {
            files,
            links,
            index,
            extensions,
            limits: *limits,
            set_len,
        })
    }

    /// The bytes of the `FileDescriptorSet` (`descriptor.proto`): each file's descriptor, by rank, and by name where ranks
    /// are the same, so that a file comes behind what it imports. It fails only for want of memory.
    pub fn set_bytes(&self, alloc: Global) -> Result<Vec<u8>, AllocError>
        ensures { IfOk result (λ bytes. bytes.items ≡ set_of self.now.files self.now.links) }
    {
        set_bytes(alloc, &self.files, &self.links, self.set_len)
    }

    /// The position of the file of this name among all of them, in the order of names: its number in the links and in the
    /// index.
    pub fn file_id(&self, name: &str) -> Option<FileId>
        ensures file { MatchOption result ((a : ℕ) → IsNamed self.now.files name.now a → ⊥)
            (IsNamed self.now.files name.now) }
        ensures within { IfSome result (λ a. a < count_of self.now.links) }
    {
        self.files.position(name)
    }

    /// The bytes of the descriptor of the file at a position.
    pub fn bytes_at(&self, file: FileId) -> &[u8]
        requires { file < count_of self.now.links }
        ensures { result.now ≡ bytes_at self.now.files file }
    {
        self.files.bytes(file)
    }

    /// The bytes of the descriptor (`descriptor.proto`, `FileDescriptorProto`) of the file of this name.
    pub fn bytes_of(&self, name: &str) -> Option<&[u8]>
        ensures { MatchOption result ((a : ℕ) → IsNamed self.now.files name.now a → ⊥)
            (λ bytes. (a : ℕ) × IsNamed self.now.files name.now a
            × (bytes.now ≡ bytes_at self.now.files a)) }
    {
        let file = self.file_id(name)?;
        Some(self.bytes_at(file))
    }

    /// A law: the links and the index are of these files, whose names rise, the extensions rise, and all keep to the limits.
    pub fn is_sound(&self)
        ensures { IsSound self.now }
    {
        let _ = &self.limits;
    }

    /// A law: the bytes of a file as field 1, and those of all files that it reaches, are no longer than the set.
    pub fn files_are_within_the_set(&self)
        ensures file { (a : ℕ) → a < count_of self.now.links
            → length (bytes_field 1 (bytes_at self.now.files a))
            ≤ length (set_of self.now.files self.now.links) }
        ensures reached { (a : ℕ) → a < count_of self.now.links
            → length (flat_map (λ b. bytes_field 1 (bytes_at self.now.files b))
            (reach_of self.now.links a)) ≤ length (set_of self.now.files self.now.links) }
    {
        self.is_sound();
    }

    /// Which file reaches and sees which, and the order of the set.
    pub fn links(&self) -> &Links
        ensures { result.now ≡ self.now.links }
    {
        &self.links
    }

    /// What the names of the files are declared for.
    pub fn names(&self) -> &NameIndex
        ensures { result.now ≡ self.now.index }
    {
        &self.index
    }

    /// The extensions that the files declare, by message and then by number, each number of a message once.
    pub fn extensions(&self) -> &[Extension]
        ensures { map declared_extension result.now ≡ self.now.extensions }
    {
        &self.extensions
    }

    /// The limits within which they stand.
    pub fn limits(&self) -> &Limits
        ensures { result.now ≡ self.now.limits }
    {
        &self.limits
    }
}
