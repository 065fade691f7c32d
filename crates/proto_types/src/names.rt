//! What names of types mean in a file. Names that are looked up in the file's package are kept, since most of a file's
//! names of types are spelled in more than one of its messages.

ghost use Rattle.std.specs.Prelude.{◌≡◌, ◌<◌, ◌≤◌, List, ℕ, IfOk};
ghost use Rattle.proto_links.specs.Linked.{count_of};
ghost use Rattle.proto_names.specs.Around.{AreScopes};
ghost use Rattle.proto_names.specs.Found.{IsFound};
ghost use Rattle.proto_names.specs.Resolution.{SeenBy};
ghost use Rattle.proto_names.specs.Scopes.{IsCandidate};
ghost use Rattle.proto_types.specs.Sight.{sight};

use crate::recalled::Recalled;
use proto_links::{FileId, Links};
use proto_names::{FoundInside, FoundType, NameIndex, Scope, Scopes, SpelledName, slot_of};
use std::alloc::{AllocError, Global};
use std::marker::Model;

/// What names of types mean in a file, which sees some files and has a package. Contracts see no more.
#[derive(Drop)]
pub(crate) struct FileNames<'i, 'd> {
    index: &'i NameIndex,
    links: &'i Links,
    file: FileId,
    package: Scope<'d>,
    /// The package and the scopes around it.
    around: Scopes<'d>,
    /// Names with what they mean in the package, each in the slot of its hash. One more takes the place of the one
    /// there.
    slots: Vec<Option<Recalled<'d>>>,
}

impl<'i, 'd> Model for FileNames<'i, 'd> {
    ghost use Rattle.std.specs.Prelude.{◌≡◌, ◌<◌, ◌≤◌, length};
    ghost use Rattle.proto_links.specs.Linked.{count_of};
    ghost use Rattle.proto_names.specs.Around.{AreScopes, IsNoScope};
    ghost use Rattle.proto_names.specs.Resolution.{SeenBy};
    ghost use Rattle.proto_types.specs.Recalling.{AreKept};
    ghost use Rattle.proto_types.specs.Sight.{Sight, sight};

    ghost Value = { Sight };

    ghost view = { λ names. sight names.index.now names.links.now names.file
        names.«package».text.now };

    ghost invariant = { λ names. (count_of names.links.now ≡ names.index.now.files)
        × (names.file < names.index.now.files) × AreScopes names.«package».text.now IsNoScope
        names.around
        × (0 < length names.slots.items) × (length names.slots.items ≤ 65_536)
        × AreKept names.index.now.occurrences (SeenBy names.links.now names.file)
        names.«package».text.now names.slots.items };
}

/// The fewest and the most names that are kept.
const FEWEST: usize = 16;

const MOST: usize = 65_536;

impl<'i, 'd> FileNames<'i, 'd> {
    /// What names mean in a file of this package, of which about so many are looked up.
    pub(crate) fn new(
        alloc: Global,
        index: &'i NameIndex,
        links: &'i Links,
        file: FileId,
        package: &'d str,
        count: usize,
    ) -> Result<FileNames<'i, 'd>, AllocError>
        requires links { count_of links.now ≡ index.now.files }
        requires file { file < index.now.files }
        ensures { IfOk result (λ names. names ≡ sight index.now links.now file «package».now) }
    {
        let package = Scope::new(package);
        let around = Scopes::around(alloc, package)?;
        let slots = vec![in alloc; None; count.clamp(FEWEST, MOST)]?;
        Ok(FileNames {
            index,
            links,
            file,
            package,
            around,
            slots,
        })
    }

    /// The scope of the file's package, which is empty where the file has none.
    pub(crate) fn package(&self) -> Scope<'d>
        ensures { result.text.now ≡ self.now.«package» }
    {
        self.package
    }

    /// The type that a name means in the package, if it means one.
    fn in_package(&mut self, name: SpelledName<'d>) -> Option<FoundType<'d>>
        ensures same { self.new ≡ self.old }
        ensures found { IsFound self.old.index.occurrences (SeenBy self.old.links self.old.file)
            self.old.«package» name.entry.text.now result }
    {
        let slot = slot_of(self.slots.len(), name.hash());
        if let Some(kept) = self.slots[slot]
            && kept.spelled == name.text
        {
            return kept.found;
        }
        let found = self
            .index
            .find_type(self.links, self.file, &self.around, name);
        self.slots[slot] = Some(Recalled {
            spelled: name.text,
            found,
        });
        found
    }

    /// The type that a name means in a scope, if it means one. The scopes are this one and those around it that stand
    /// in the package.
    pub(crate) fn find<'n>(
        &mut self,
        scopes: &Scopes<'n>,
        spelled: &'d str,
    ) -> Option<FoundType<'n>>
    where
        'd: 'n,
        ensures same { self.new ≡ self.old }
        ensures found { (scope : List ℕ) → IsCandidate self.old.«package» scope
            → AreScopes scope (λ c. IsCandidate c self.old.«package») scopes.now
            → IsFound self.old.index.occurrences (SeenBy self.old.links self.old.file) scope
            spelled.now result }
    {
        let name = SpelledName::new(spelled);
        match self.index.find_inside(self.links, self.file, scopes, name) {
            FoundInside::Here(found) => found,
            FoundInside::Outside => self.in_package(name),
        }
    }
}
