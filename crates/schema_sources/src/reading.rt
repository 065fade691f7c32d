//! The sources of a folder, by workers that share the reading.

ghost use Rattle.std.specs.Prelude.{◌≡◌, Ok, IfErr, IfOk, map, string_bytes};
ghost use Rattle.proto_base.specs.NameOrder.{NamesRise};
ghost use Rattle.share_work.specs.Shares.{GivesItems};
ghost use Rattle.source_folder.specs.Folder.{names_of};
ghost use Rattle.schema_sources.specs.Reading.{AreTakenOf, IsFirstTrouble, IsReadUnder};

use crate::folder::SourceFolder;
use proto_base::Limits;
use share_work::phases::UNGATED;
use share_work::{ItemWork, NoGate, Plan, each_in_shares};
use source_folder::{FolderTrouble, NamedText};
use std::alloc::{AllocError, AllocGlobal, Global};
use std::thread::Threads;

/// The source of a name that a folder lists, as the folder's custom options are taken.
fn source_under<F: SourceFolder>(
    alloc: Global,
    folder: &F,
    name: &str,
    limits: &Limits,
) -> Result<NamedText, FolderTrouble>
    ensures { IsReadUnder (F.sources folder.now) name.now result }
{
    let mut text = folder.text(name, limits)?;
    folder.custom_options().apply(alloc, &mut text)?;
    let name = String::from_str(alloc, name)?;
    Ok(NamedText { name, text })
}

/// Reads the source of each name.
#[derive(Drop)]
struct Reading<'f, F> {
    folder: &'f F,
    limits: Limits,
}

impl<F: SourceFolder> ItemWork<String> for Reading<'_, F> {
    ghost use Rattle.std.specs.Prelude.{⊤, string_bytes};
    ghost use Rattle.schema_sources.specs.Reading.{IsReadUnder};

    type Out = Result<NamedText, FolderTrouble>;

    ghost takes = { λ _ _ _. ⊤ };

    ghost gives = { λ work _ name outcome. IsReadUnder (F.sources work.folder.now)
        (string_bytes name) outcome };

    fn item(
        &self,
        alloc: Global,
        _position: usize,
        name: &String,
    ) -> Result<Result<NamedText, FolderTrouble>, AllocError> {
        Ok(source_under(alloc, self.folder, name.as_str(), &self.limits))
    }
}

/// What is read under each name. No trouble keeps a worker from reading on.
fn outcomes_of<R, F>(
    rt: &R,
    folder: &F,
    names: &[String],
    limits: &Limits,
    plan: Plan,
) -> Result<Vec<Result<NamedText, FolderTrouble>>, AllocError>
where
    R: Threads + AllocGlobal + Sync,
    F: SourceFolder + Sync,
    ensures { IfOk result (λ outcomes. GivesItems
        (λ _ name. IsReadUnder (F.sources folder.now) (string_bytes name)) 0 names.now
        outcomes.items) }
{
    let work = Reading {
        folder,
        limits: *limits,
    };
    let plan = plan.evened(names.len());
    each_in_shares(rt, plan, UNGATED, &NoGate, names, &work)
}

/// The sources, or the first trouble.
fn all_read(
    alloc: Global,
    outcomes: Vec<Result<NamedText, FolderTrouble>>,
) -> Result<Vec<NamedText>, FolderTrouble>
    ensures read { IfOk result (λ texts. outcomes.items ≡ map Ok texts.items) }
    ensures first { IfErr result (IsFirstTrouble outcomes.items) }
{
    let mut texts = Vec::with_capacity(alloc, outcomes.len())?;
    for outcome in outcomes {
        match outcome {
            Ok(text) => texts.push(text)?,
            Err(trouble) => return Err(trouble),
        }
    }
    Ok(texts)
}

/// The sources of a folder in the order of their names, without what they import.
pub(crate) fn listed_sources<R, F>(
    rt: &R,
    folder: &F,
    limits: &Limits,
    plan: Plan,
) -> Result<Vec<NamedText>, FolderTrouble>
where
    R: Threads + AllocGlobal + Sync,
    F: SourceFolder + Sync,
    ensures texts { IfOk result (λ texts. AreTakenOf (F.sources folder.now) texts.items) }
    ensures order { IfOk result (λ texts. NamesRise (names_of texts.items)) }
{
    let names = folder.names()?;
    let outcomes = outcomes_of(rt, folder, &names, limits, plan)?;
    all_read(rt.alloc(), outcomes)
}
