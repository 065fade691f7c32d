//! The pass over the lengths of descriptors.

ghost use Rattle.std.specs.Prelude.{◌≡◌, List, length, map, true, All, IfOk, IfErr, OnOk};
ghost use Rattle.proto_compile.specs.Analysed.{AreResolved};
ghost use Rattle.proto_compile.specs.Compiled.{IsShort};
ghost use Rattle.proto_compile.specs.FaultSet.{IsLeastFault, TellsOf};
ghost use Rattle.proto_compile.specs.Outcomes.{IsWrittenShort};
ghost use Rattle.proto_compile.specs.Steps.{items_of};
ghost use Rattle.proto_compile.specs.declared.source.Source.{Source};
ghost use Rattle.proto_desc.specs.Resolved.{file_resolved};
ghost use Rattle.proto_links.specs.Linked.{Linked};
ghost use Rattle.proto_names.specs.Index.{Index};
ghost use Rattle.wire_bytes.specs.Descriptor.{file_desc_bytes};

use crate::error::{CompileError, START};
use crate::letting_go::leave;
use crate::outcome::judge;
use crate::pass::Pass;
use crate::source::Source;
use crate::workers::Workers;
use proto_base::{FileError, Kind, Limit, Limits, ONLY_STEP, Spot};
use proto_desc::file::FileDesc;
use share_work::phases::WRITING;
use share_work::{Gate, ItemWork};
use std::alloc::{AllocError, AllocGlobal, Global};
use std::thread::Threads;
use wire_bytes::file_bytes_within;

/// The bytes of a file's descriptor, if there are no more than the limit.
fn write(alloc: Global, desc: &FileDesc, limits: &Limits) -> Result<Vec<u8>, FileError>
    requires { file_resolved desc.now ≡ true }
    ensures { IsWrittenShort limits.now desc.now result }
{
    match file_bytes_within(alloc, desc, limits.get(Limit::DescriptorBytes))? {
        Some(bytes) => Ok(bytes),
        None => {
            let kind = Kind::DescriptorTooLong;
            Err(FileError::at(ONLY_STEP, Spot { place: START, kind }))
        }
    }
}

/// Writes descriptors, each by itself.
#[derive(Drop)]
struct Writing {
    limits: Limits,
}

impl<'s> ItemWork<FileDesc<'s>> for Writing {
    ghost use Rattle.std.specs.Prelude.{◌≡◌, true};
    ghost use Rattle.proto_compile.specs.Outcomes.{IsWrittenShort};
    ghost use Rattle.proto_desc.specs.Resolved.{file_resolved};

    type Out = Result<Vec<u8>, FileError>;

    ghost takes = { λ _ _ desc. file_resolved desc ≡ true };

    ghost gives = { λ work _ desc outcome. IsWrittenShort work.limits desc outcome };

    fn item(
        &self,
        alloc: Global,
        _position: usize,
        desc: &FileDesc<'s>,
    ) -> Result<Result<Vec<u8>, FileError>, AllocError> {
        Ok(write(alloc, desc, &self.limits))
    }
}

/// The bytes of the descriptors, of which none has more than the limit. Of these nothing stays but what `Leftovers` says.
pub(crate) fn write_all<R, G>(
    workers: &Workers<'_, R, G>,
    files: &[Source],
    descs: Vec<FileDesc>,
    limits: &Limits,
) -> Result<Vec<Vec<u8>>, CompileError>
where
    R: Threads + AllocGlobal + Sync,
    G: Gate + Sync,
    requires files { length files.now ≡ length descs.items }
    requires resolved { All (λ desc. file_resolved desc ≡ true) descs.items }
    ensures bytes { IfOk result (λ all. map items_of all.items ≡ map file_desc_bytes descs.entry.items) }
    ensures short { OnOk result (All (IsShort limits.now) descs.entry.items) }
    ensures first { (sources : List Source) (links : Linked) (index : Index)
        → AreResolved limits.now sources files.now descs.entry.items links index
        → IfErr result (TellsOf (IsLeastFault limits.now sources)) }
{
    let work = Writing { limits: *limits };
    let outcomes = workers.each(WRITING, descs.as_slice(), &work)?;
    leave(workers, descs);
    judge(workers.rt.alloc(), Pass::Lengths, files, outcomes)
}
