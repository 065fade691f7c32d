//! The table of files by name.

ghost use Rattle.std.specs.Prelude.{◌≡◌, ℕ, ◌<◌, List, [], ◌∷◌, ◌++◌, OnOk, IfOk, MatchOption, length, Vec};
ghost use Rattle.proto_compilation.specs.Compilation.{CompiledFile, IsNamed, bytes_at};
ghost use Rattle.proto_compilation.specs.Parts.{compiled_file};

use indexmap::IndexMap;
use proto_links::FileId;
use std::alloc::{AllocError, Global};
use std::marker::Model;

/// Files in the order in which they came. Contracts see it as the list of them.
#[derive(Drop)]
pub struct FileTable {
    /// The bytes of each file's descriptor, by its name.
    entries: IndexMap<String, Vec<u8>>,
}

impl Model for FileTable {
    ghost use Rattle.std.specs.Prelude.{List, map};
    ghost use Rattle.proto_compilation.specs.Compilation.{CompiledFile};
    ghost use Rattle.proto_compilation.specs.Parts.{compiled_file};

    ghost Value = { List CompiledFile };

    ghost view = { λ table. map compiled_file table.entries.entries };
}

impl FileTable {
    /// A table with room for so many files.
    pub fn with_capacity(alloc: Global, count: usize) -> Result<FileTable, AllocError>
        ensures { IfOk result (λ table. table ≡ []) }
    {
        let entries = IndexMap::with_capacity(alloc, count)?;
        Ok(FileTable { entries })
    }

    /// How many files there are.
    pub fn len(&self) -> usize
        ensures { result ≡ length self.now }
    {
        self.entries.len()
    }

    /// Adds a file whose name no other one has.
    pub fn push(&mut self, alloc: Global, name: &str, bytes: Vec<u8>) -> Result<(), AllocError>
        requires { (a : ℕ) → IsNamed self.old name.now a → ⊥ }
        ensures { OnOk result (self.new ≡ self.old
            ++ record { name = name.now; bytes = bytes.items } ∷ []) }
    {
        self.entries.insert(String::from_str(alloc, name)?, bytes)?;
        Ok(())
    }

    /// The position of the file of this name.
    pub fn position(&self, name: &str) -> Option<FileId>
        ensures { MatchOption result ((a : ℕ) → IsNamed self.now name.now a → ⊥)
            (IsNamed self.now name.now) }
    {
        self.entries.get_index_of(name)
    }

    /// The bytes of the file at a position.
    pub fn bytes(&self, file: FileId) -> &[u8]
        requires { file < length self.now }
        ensures { result.now ≡ bytes_at self.now file }
    {
        match self.entries.get_index(file) {
            Some((_, bytes)) => bytes.as_slice(),
            None => &[],
        }
    }
}
