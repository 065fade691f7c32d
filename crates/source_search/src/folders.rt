//! Which of several folders has a file.

ghost use Rattle.std.specs.Prelude.{◌∷◌, IfOk, map};
ghost use Rattle.source_search.specs.Folders.{IsFirstFolder, IsFirstText, IsTextBelow, IsThere};

use proto_base::Limits;
use source_folder::FolderTrouble;
use std::alloc::AllocError;

/// The texts below folders.
pub trait Folders {
    ghost use Rattle.std.specs.Prelude.{Option};
    ghost use Rattle.source_search.specs.Folders.{Contents};

    // What stands below each folder, where that is known.
    ghost contents: { Self → Option Contents };

    /// The text under a name below a folder, if there is one.
    fn text_below(
        &self,
        folder: &str,
        name: &str,
        limits: &Limits,
    ) -> Result<Option<Vec<u8>>, FolderTrouble>
        ensures { IfOk result (IsTextBelow (contents self.now) folder.now name.now) };

    /// Whether there is a text under a name below a folder.
    fn has(&self, folder: &str, name: &str) -> Result<bool, AllocError>
        ensures { IfOk result (IsThere (contents self.now) folder.now name.now) };
}

/// The text under a name in the first of the folders that has one.
fn text_among<F: Folders>(
    folders: &F,
    among: &[&str],
    name: &str,
    limits: &Limits,
) -> Result<Option<Vec<u8>>, FolderTrouble>
    ensures { IfOk result (IsFirstText (F.contents folders.now) (map (λ f. f.now) among.now)
        name.now) }
{
    for folder in among {
        if let Some(text) = folders.text_below(folder, name, limits)? {
            return Ok(Some(text));
        }
    }
    Ok(None)
}

/// The text under a name from the first that has one: the folder, and then the later ones in their order.
pub fn first_text<F: Folders>(
    folders: &F,
    folder: &str,
    later: &[&str],
    name: &str,
    limits: &Limits,
) -> Result<Option<Vec<u8>>, FolderTrouble>
    ensures { IfOk result (IsFirstText (F.contents folders.now)
        (folder.now ∷ map (λ f. f.now) later.now) name.now) }
{
    match folders.text_below(folder, name, limits)? {
        Some(text) => Ok(Some(text)),
        None => text_among(folders, later, name, limits),
    }
}

/// The first of the folders that has a text under a name.
fn folder_among<'f, F: Folders>(
    folders: &F,
    among: &[&'f str],
    name: &str,
) -> Result<Option<&'f str>, AllocError>
    ensures { IfOk result (IsFirstFolder (F.contents folders.now) (map (λ f. f.now) among.now)
        name.now) }
{
    for folder in among {
        if folders.has(folder, name)? {
            return Ok(Some(folder));
        }
    }
    Ok(None)
}

/// The first that has a text under a name: the folder, and then the later ones in their order.
pub fn first_folder<'f, F: Folders>(
    folders: &F,
    folder: &'f str,
    later: &[&'f str],
    name: &str,
) -> Result<Option<&'f str>, AllocError>
    ensures { IfOk result (IsFirstFolder (F.contents folders.now)
        (folder.now ∷ map (λ f. f.now) later.now) name.now) }
{
    if folders.has(folder, name)? {
        return Ok(Some(folder));
    }
    folder_among(folders, later, name)
}
