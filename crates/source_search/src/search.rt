//! The search for what sources import.

ghost use Rattle.std.specs.Prelude.{◌≡◌, ◌∷◌, [], All, IfOk, List, OnOk, flat_map, map, string_bytes};
ghost use Rattle.proto_base.specs.declared.limits.Limits.{Limits};
ghost use Rattle.source_folder.specs.Folder.{NamedBytes, named_bytes, names_of};
ghost use Rattle.proto_base.specs.NameOrder.{NamesRise};
ghost use Rattle.source_search.specs.Searching.{AsksFor, IsClosed, IsSearch, Keeps, is_asked, sources_of, texts_in};
ghost use Rattle.source_search.specs.Shelves.{Known};

use crate::reading::imports_of_each;
use crate::shelf::Shelf;
use proto_base::Limits;
use share_work::Plan;
use source_folder::{FolderFault, FolderTrouble, NamedText};
use std::alloc::{AllocError, AllocGlobal, Global};
use std::collections::BTreeSet;
use std::thread::Threads;

/// How many sources may be searched.
const MAX_SOURCES: usize = 1_048_576;

/// What a search knows.
#[derive(Drop)]
pub(crate) struct Search {
    /// The given sources, and behind them those that were found.
    pub(crate) sources: Vec<NamedText>,
    /// The names of the given sources, and those that were looked up.
    pub(crate) asked: BTreeSet<String>,
}

impl Search {
    /// A search that has nothing but the given sources.
    pub(crate) fn new(alloc: Global, given: Vec<NamedText>) -> Result<Search, AllocError>
        requires { NamesRise (names_of given.items) }
        ensures { IfOk result (λ search. (limits : Limits) (known : Known)
            → IsSearch limits known (map named_bytes given.items) search) }
    {
        let mut asked = BTreeSet::new(alloc);
        for source in &given {
            asked.insert(source.name.clone()?)?;
        }
        Ok(Search {
            sources: given,
            asked,
        })
    }

    /// The given sources and those that were found.
    pub(crate) fn into_sources(self) -> Vec<NamedText>
        ensures { result ≡ self.sources }
    {
        self.sources
    }

    /// Keeps what was found under a name, which is asked for no more.
    fn keep(&mut self, alloc: Global, name: &str, found: Option<Vec<u8>>) -> Result<(), AllocError>
        ensures { OnOk result (Keeps name.now found self.old self.new) }
    {
        self.asked.insert(String::from_str(alloc, name)?)?;
        let Some(text) = found else {
            return Ok(());
        };
        let name = String::from_str(alloc, name)?;
        self.sources.push(NamedText { name, text })?;
        Ok(())
    }

    /// Looks a name up, unless that was done before or a given source has it.
    fn ask<S: Shelf>(
        &mut self,
        alloc: Global,
        shelf: &S,
        limits: &Limits,
        name: &str,
    ) -> Result<(), FolderTrouble>
        ensures { OnOk result (AsksFor limits.now (S.texts shelf.now) (name.now ∷ []) self.old
            self.new) }
    {
        if self.asked.contains(name) {
            return Ok(());
        }
        let found = shelf.text_of(name, limits)?;
        self.keep(alloc, name, found)?;
        Ok(())
    }

    /// Looks names up.
    fn ask_each<S: Shelf>(
        &mut self,
        alloc: Global,
        shelf: &S,
        limits: &Limits,
        names: &[String],
    ) -> Result<(), FolderTrouble>
        ensures { OnOk result (AsksFor limits.now (S.texts shelf.now) (map string_bytes names.now)
            self.old self.new) }
    {
        for name in names {
            self.ask(alloc, shelf, limits, name.as_str())?;
        }
        Ok(())
    }

    /// Looks up the names of each list.
    fn ask_all<S: Shelf>(
        &mut self,
        alloc: Global,
        shelf: &S,
        limits: &Limits,
        lists: &[Vec<String>],
    ) -> Result<(), FolderTrouble>
        ensures { OnOk result (AsksFor limits.now (S.texts shelf.now) (flat_map texts_in lists.now)
            self.old self.new) }
    {
        for names in lists {
            self.ask_each(alloc, shelf, limits, names)?;
        }
        Ok(())
    }

    /// Looks up what the sources import, round by round: what was found in one round is read in the next.
    pub(crate) fn complete<R, S>(
        &mut self,
        rt: &R,
        shelf: &S,
        limits: &Limits,
        plan: Plan,
    ) -> Result<(), FolderTrouble>
    where
        R: Threads + AllocGlobal + Sync,
        S: Shelf,
        ensures searched { OnOk result ((given : List NamedBytes)
            → IsSearch limits.now (S.texts shelf.now) given self.old
            → IsSearch limits.now (S.texts shelf.now) given self.new) }
        ensures closed { OnOk result (All (IsClosed limits.now (is_asked self.new))
            (sources_of self.new)) }
    {
        let alloc = rt.alloc();
        let mut done = 0;
        while done < self.sources.len() {
            let count = self.sources.len();
            if count > MAX_SOURCES {
                return Err(FolderTrouble::from(FolderFault::Listing));
            }
            let lists = imports_of_each(rt, plan, &self.sources[done..], limits)?;
            self.ask_all(alloc, shelf, limits, &lists)?;
            done = count;
        }
        Ok(())
    }
}
