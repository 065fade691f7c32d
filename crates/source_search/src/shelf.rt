//! Where the texts of sources are looked for.

ghost use Rattle.std.specs.Prelude.{IfOk};
ghost use Rattle.source_search.specs.Shelves.{IsFoundOn, Known};

use proto_base::Limits;
use source_folder::FolderTrouble;

/// Where the texts of sources are looked for by their names.
pub trait Shelf {
    // The text under each name, where that is known.
    ghost texts: { Self → Known };

    /// The text under a name that can be a path below a folder, if there is one.
    fn text_of(&self, name: &str, limits: &Limits) -> Result<Option<Vec<u8>>, FolderTrouble>
        ensures { IfOk result (IsFoundOn (texts self.now) name.now) };
}
