//! Sources as they are written, where custom options were skipped in them.

ghost use Rattle.std.specs.Prelude.{◌≡◌, IfOk, IsTrue};
ghost use Rattle.proto_compile.specs.Sources.{text_of};
ghost use Rattle.schema_check.specs.Texts.{AreTextsFor};
ghost use Rattle.schema_check.specs.Written.{line_ends};

use proto_base::{Fault, Limits};
use proto_compile::Source;
use source_folder::{FolderFault, NamedText};
use source_search::Shelf;
use std::alloc::{AllocError, Global};
use std::collections::HashSet;

/// Whether two texts have as many bytes, and line ends at the same places.
fn have_same_lines(text: &[u8], shown: &[u8]) -> bool
    ensures { IsTrue result → line_ends shown.now ≡ line_ends text.now }
{
    if shown.len() != text.len() {
        return false;
    }
    for at in 0..text.len() {
        if (shown[at] == b'\n') != (text[at] == b'\n') {
            return false;
        }
    }
    true
}

/// The text under a source's name as it stands on a shelf now, if it can be read.
fn written_text<S: Shelf>(
    shelf: &S,
    source: &Source,
    limits: &Limits,
) -> Result<Option<Vec<u8>>, AllocError> {
    match shelf.text_of(source.name, limits) {
        Ok(found) => Ok(found),
        Err(trouble) => match trouble.fault {
            FolderFault::NoMemory => Err(AllocError),
            _ => Ok(None),
        },
    }
}

/// The text of a source as it stands on a shelf now, where a fault is in it, if that has its lines: a file may have changed since it
/// was read. Else the text as it is.
fn shown_text<S: Shelf>(
    alloc: Global,
    shelf: &S,
    source: &Source,
    is_faulty: bool,
    limits: &Limits,
) -> Result<Vec<u8>, AllocError>
    ensures { IfOk result (λ text. line_ends text.items ≡ line_ends (text_of source.now)) }
{
    if is_faulty {
        if let Some(written) = written_text(shelf, source, limits)? {
            if have_same_lines(source.text, &written) {
                return Ok(written);
            }
        }
    }
    Vec::from_slice(alloc, source.text)
}

/// The names of the files in which faults are.
fn faulty_names<'f>(alloc: Global, faults: &'f [Fault]) -> Result<HashSet<&'f str>, AllocError> {
    let mut names = HashSet::new(alloc);
    for fault in faults {
        names.insert(fault.file.as_str())?;
    }
    Ok(names)
}

/// The texts of sources as they are shown: those in which faults are as they are written.
pub(crate) fn shown_texts<S: Shelf>(
    alloc: Global,
    shelf: &S,
    sources: &[Source],
    faults: &[Fault],
    limits: &Limits,
) -> Result<Vec<NamedText>, AllocError>
    ensures { IfOk result (λ texts. AreTextsFor sources.now texts.items) }
{
    let faulty = faulty_names(alloc, faults)?;
    let mut texts = Vec::with_capacity(alloc, sources.len())?;
    for source in sources {
        let is_faulty = faulty.contains(source.name);
        texts.push(NamedText {
            name: String::from_str(alloc, source.name)?,
            text: shown_text(alloc, shelf, source, is_faulty, limits)?,
        })?;
    }
    Ok(texts)
}
