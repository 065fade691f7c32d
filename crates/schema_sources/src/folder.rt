//! Folders that sources are read from.

ghost use Rattle.std.specs.Prelude.{◌≡◌, false, IfOk, IsTrue, None, map, string_bytes};
ghost use Rattle.schema_sources.specs.Texts.{AreNamesOf, AreTextsOf, IsTextUnder, KnownSources};
ghost use Rattle.proto_base.specs.NameOrder.{NamesRise};
ghost use Rattle.source_folder.specs.Folder.{names_of};

use crate::places::Elsewhere;
use crate::reading::listed_sources;
use proto_base::Limits;
use share_work::Plan;
use skipped_sources::{CustomOptions, Skipping, drop_lost_imports};
use source_folder::{FolderTrouble, NamedText};
use source_search::{Shelf, with_imports};
use std::alloc::{AllocError, AllocGlobal};
use std::thread::Threads;

/// A folder that sources are read from, and the shelf on which what they import may be looked for.
pub trait SourceFolder: Shelf {
    // What is known of its sources, and what is done about custom options.
    ghost sources: { Self → KnownSources };

    /// The names of its sources, in their order. What keeps them from being known is told before a source is read.
    fn names(&self) -> Result<Vec<String>, FolderTrouble>
        ensures names { IfOk result (λ names. AreNamesOf (sources self.now) names.items) }
        ensures order { IfOk result (λ names. NamesRise (map string_bytes names.items)) };

    /// Reads the source of one of these names. Any thread may ask for any of them.
    fn text(&self, name: &str, limits: &Limits) -> Result<Vec<u8>, FolderTrouble>
        ensures { IfOk result (λ text. IsTextUnder (sources self.now) name.now text.items) };

    /// Which of these sources lie in another folder than the root.
    fn elsewhere<'t>(&'t self, texts: &'t [NamedText]) -> Result<Vec<Elsewhere<'t>>, AllocError>;

    /// Whether what the sources import is looked for on the shelf. Then it isn't known what the sources will be.
    fn has_shelf(&self) -> bool
        ensures { IsTrue result → (sources self.now).texts ≡ None };

    /// What is done about custom options in its sources, and in what they import.
    fn custom_options(&self) -> CustomOptions
        ensures { result ≡ (sources self.now).custom_options };
}

/// Sources, and where it is asked what they import of a shelf.
fn searched<R, S>(
    rt: &R,
    given: Vec<NamedText>,
    is_asked: bool,
    shelf: &S,
    limits: &Limits,
    plan: Plan,
) -> Result<Vec<NamedText>, FolderTrouble>
where
    R: Threads + AllocGlobal + Sync,
    S: Shelf,
    requires { NamesRise (names_of given.items) }
    ensures { is_asked ≡ false → IfOk result (λ sources. sources ≡ given) }
{
    if is_asked {
        with_imports(rt, given, shelf, limits, plan)
    } else {
        Ok(given)
    }
}

/// The sources of a folder, and what they import of its shelf, in the order of their names. Workers share the reading of the
/// folder's sources. Where the folder skips custom options, each source is taken without them, and none has an import of what
/// is not among all.
///
/// A trouble in listing them comes first, and then that of the source of the least name, as when they are read one after another.
/// `NoMemory` comes where it is met, and only where the allocator had none.
pub fn read_sources<R, F>(
    rt: &R,
    folder: &F,
    limits: &Limits,
    plan: Plan,
) -> Result<Vec<NamedText>, FolderTrouble>
where
    R: Threads + AllocGlobal + Sync,
    F: SourceFolder + Sync,
    ensures { IfOk result (λ texts. AreTextsOf limits.now (F.sources folder.now) texts.items) }
{
    let given = listed_sources(rt, folder, limits, plan)?;
    let is_asked = folder.has_shelf();
    match folder.custom_options() {
        CustomOptions::Refuse => searched(rt, given, is_asked, folder, limits, plan),
        CustomOptions::Skip => {
            let shelf = Skipping {
                alloc: rt.alloc(),
                shelf: folder,
            };
            let mut sources = searched(rt, given, is_asked, &shelf, limits, plan)?;
            drop_lost_imports(rt, &mut sources, limits, plan)?;
            Ok(sources)
        }
    }
}
