//! Sources without imports of what is not among them.

ghost use Rattle.std.specs.Prelude.{◌≡◌, ℕ, IfOk, List, OnOk, map};
ghost use Rattle.std.specs.List.{AllZip};
ghost use Rattle.skipped_sources.specs.Losing.{LosesAmong, SourceLoses};
ghost use Rattle.skipped_sources.specs.Lost.{AreWithoutLost};
ghost use Rattle.source_folder.specs.Folder.{named_bytes, names_of};

use crate::blanks::blank_sources;
use crate::finding::lost_in;
use crate::names::names_of;
use proto_base::{Limits, Span};
use share_work::phases::UNGATED;
use share_work::{ItemWork, NoGate, Plan, each_in_shares};
use source_folder::NamedText;
use std::alloc::{AllocError, AllocGlobal, Global};
use std::collections::BTreeSet;
use std::thread::Threads;

/// Finds what each source loses.
#[derive(Drop)]
struct Losing<'n, 's> {
    names: &'n BTreeSet<&'s str>,
    limits: Limits,
}

impl ItemWork<NamedText> for Losing<'_, '_> {
    ghost use Rattle.std.specs.Prelude.{⊤};
    ghost use Rattle.skipped_sources.specs.Losing.{SourceLoses};

    type Out = Vec<Span>;

    ghost takes = { λ _ _ _. ⊤ };

    ghost gives = { λ work _ source spans. SourceLoses work.limits work.names.now source spans };

    fn item(
        &self,
        alloc: Global,
        _position: usize,
        source: &NamedText,
    ) -> Result<Vec<Span>, AllocError> {
        lost_in(alloc, &source.text, self.names, &self.limits)
    }
}

/// The spans of the tokens that each source loses.
fn lost_in_each<R>(
    rt: &R,
    plan: Plan,
    sources: &[NamedText],
    names: &BTreeSet<&str>,
    limits: &Limits,
) -> Result<Vec<Vec<Span>>, AllocError>
where
    R: Threads + AllocGlobal + Sync,
    ensures { IfOk result (λ lists. AllZip (SourceLoses limits.now names.now) sources.now lists.items) }
{
    let work = Losing {
        names,
        limits: *limits,
    };
    let plan = plan.evened(sources.len());
    each_in_shares(rt, plan, UNGATED, &NoGate, sources, &work)
}

/// The spans of the tokens that each source loses.
fn lost_spans<R>(
    rt: &R,
    plan: Plan,
    sources: &[NamedText],
    limits: &Limits,
) -> Result<Vec<Vec<Span>>, AllocError>
where
    R: Threads + AllocGlobal + Sync,
    ensures { IfOk result (λ lists. AllZip (LosesAmong limits.now (names_of sources.now)) sources.now
        lists.items) }
{
    let names = names_of(rt.alloc(), sources)?;
    lost_in_each(rt, plan, sources, &names, limits)
}

/// Drops the imports of what is not among the sources: spaces stand where their tokens stood, so that all else keeps its place.
/// A source that is no file by its tokens and its grammar stays as it is. Workers share the reading.
///
/// The error is want of memory, and no source is changed then.
pub fn drop_lost_imports<R>(
    rt: &R,
    sources: &mut [NamedText],
    limits: &Limits,
    plan: Plan,
) -> Result<(), AllocError>
where
    R: Threads + AllocGlobal + Sync,
    ensures { OnOk result (AreWithoutLost limits.now (map named_bytes sources.old)
        (map named_bytes sources.new)) }
{
    let lists = lost_spans(rt, plan, sources, limits)?;
    blank_sources(sources, &lists);
    Ok(())
}
