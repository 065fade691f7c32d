//! What many sources import, by workers that share them.

ghost use Rattle.std.specs.Prelude.{IfOk};
ghost use Rattle.std.specs.List.{AllZip};
ghost use Rattle.source_search.specs.Searching.{SourceImports};

use crate::imports::imports_of;
use proto_base::Limits;
use share_work::phases::UNGATED;
use share_work::{ItemWork, NoGate, Plan, each_in_shares};
use source_folder::NamedText;
use std::alloc::{AllocError, AllocGlobal, Global};
use std::thread::Threads;

/// Finds what each source imports.
#[derive(Drop)]
struct ImportReading {
    limits: Limits,
}

impl ItemWork<NamedText> for ImportReading {
    ghost use Rattle.std.specs.Prelude.{⊤};
    ghost use Rattle.source_search.specs.Searching.{SourceImports};

    type Out = Vec<String>;

    ghost takes = { λ _ _ _. ⊤ };

    ghost gives = { λ work _ source names. SourceImports work.limits source names };

    fn item(
        &self,
        alloc: Global,
        _position: usize,
        source: &NamedText,
    ) -> Result<Vec<String>, AllocError> {
        imports_of(alloc, &source.text, &self.limits)
    }
}

/// The names below a folder that each source imports.
pub(crate) fn imports_of_each<R>(
    rt: &R,
    plan: Plan,
    sources: &[NamedText],
    limits: &Limits,
) -> Result<Vec<Vec<String>>, AllocError>
where
    R: Threads + AllocGlobal + Sync,
    ensures { IfOk result (λ lists. AllZip (SourceImports limits.now) sources.now lists.items) }
{
    let work = ImportReading { limits: *limits };
    let plan = plan.evened(sources.len());
    each_in_shares(rt, plan, UNGATED, &NoGate, sources, &work)
}
