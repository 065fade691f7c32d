//! The pass over each source by itself.

ghost use Rattle.std.specs.Prelude.{◌≡◌, ◌≤◌, List, Contains, IfOk, IfErr, length};
ghost use Rattle.std.specs.List.{AllZip};
ghost use Rattle.proto_base.specs.Limits.{limit_of};
ghost use Rattle.proto_base.specs.declared.file_fault.FileFault.{FileFault};
ghost use Rattle.proto_base.specs.declared.limits.Limit.TheVariants as limit;
ghost use Rattle.proto_compile.specs.Descriptions.{SourceDescribes};
ghost use Rattle.proto_compile.specs.FaultSet.{IsLeastFault, TellsOf, fault};
ghost use Rattle.proto_compile.specs.Sources.{AreByName, name_of, text_of};
ghost use Rattle.proto_compile.specs.declared.source.Source.{Source};
ghost use Rattle.proto_file.specs.Local.{IsOwnFault};

use crate::error::CompileError;
use crate::outcome::judge;
use crate::pass::Pass;
use crate::source::Source;
use crate::workers::Workers;
use proto_base::{FileError, Limits};
use proto_desc::file::FileDesc;
use proto_file::describe;
use share_work::phases::DESCRIBING;
use share_work::{Gate, ItemWork};
use std::alloc::{AllocError, AllocGlobal, Global};
use std::thread::Threads;

/// Describes sources, each by itself.
#[derive(Drop)]
struct Describing {
    limits: Limits,
}

impl<'s> ItemWork<Source<'s>> for Describing {
    ghost use Rattle.std.specs.Prelude.{⊤};
    ghost use Rattle.proto_compile.specs.Outcomes.{IsDescribed};

    type Out = Result<FileDesc<'s>, FileError>;

    ghost takes = { λ _ _ _. ⊤ };

    ghost gives = { λ work _ source outcome. IsDescribed work.limits source outcome };

    fn item(
        &self,
        alloc: Global,
        _position: usize,
        source: &Source<'s>,
    ) -> Result<Result<FileDesc<'s>, FileError>, AllocError> {
        Ok(describe(alloc, source.name, source.text, &self.limits))
    }
}

/// What sources describe, which stand in the order of their names.
pub(crate) fn describe_all<'s, R, G>(
    workers: &Workers<'_, R, G>,
    files: &[Source<'s>],
    limits: &Limits,
) -> Result<Vec<FileDesc<'s>>, CompileError>
where
    R: Threads + AllocGlobal + Sync,
    G: Gate + Sync,
    ensures described { IfOk result (λ descs. AllZip (SourceDescribes limits.now) files.now
        descs.items) }
    ensures first { (sources : List Source) → length sources ≤ limit_of limits.now limit.Files
        → AreByName sources files.now
        → IfErr result (TellsOf (IsLeastFault limits.now sources)) }
    ensures own { IfErr result (TellsOf (λ x. (s : Source) × Contains files.now s
        × ((f : FileFault) × IsOwnFault limits.now (name_of s) (text_of s) f
        × (x ≡ fault 1 (name_of s) f)))) }
{
    let work = Describing { limits: *limits };
    let outcomes = workers.each(DESCRIBING, files, &work)?;
    judge(workers.rt.alloc(), Pass::Local, files, outcomes)
}
