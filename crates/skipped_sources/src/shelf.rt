//! A shelf on which texts are found without custom options.

use proto_base::Limits;
use source_folder::FolderTrouble;
use source_search::Shelf;
use source_skip::{begins_other, skip};
use std::alloc::Global;

/// A shelf, as if custom options were not there. A text of another language is not found on it.
#[derive(Drop)]
pub struct Skipping<'s, S> {
    pub alloc: Global,
    pub shelf: &'s S,
}

impl<S: Shelf> Shelf for Skipping<'_, S> {
    ghost use Rattle.skipped_sources.specs.Shelves.{known_skipped};

    ghost texts = { λ skipping. known_skipped (S.texts skipping.shelf.now) };

    fn text_of(&self, name: &str, limits: &Limits) -> Result<Option<Vec<u8>>, FolderTrouble> {
        let Some(mut text) = self.shelf.text_of(name, limits)? else {
            return Ok(None);
        };
        if begins_other(&text) {
            return Ok(None);
        }
        skip(self.alloc, &mut text)?;
        Ok(Some(text))
    }
}
