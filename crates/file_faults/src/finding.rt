//! The faults of sources, each by itself, by workers.

ghost use Rattle.std.specs.Prelude.{◌≡◌, ◌≢◌, ◌≤◌, [], ◌∷◌, List, AllPairs, IfOk, length, map};
ghost use Rattle.file_faults.specs.OwnFaults.{AreFileFaults};
ghost use Rattle.file_faults.specs.PassFaults.{AreAllFaults};
ghost use Rattle.proto_base.specs.Limits.{limit_of};
ghost use Rattle.proto_base.specs.declared.fault.Fault.{Fault};
ghost use Rattle.proto_base.specs.declared.limits.Limit.TheVariants as limit;
ghost use Rattle.proto_compile.specs.FaultSet.{IsEarlier, IsLeastFault, told_by};
ghost use Rattle.proto_base.specs.NameOrder.{NamesRise};
ghost use Rattle.proto_compile.specs.Sources.{AreByName, name_of};
ghost use Rattle.proto_compile.specs.declared.source.Source.{Source};

use crate::naming::all_named;
use proto_base::{Fault, FileFault, Limits};
use proto_compile::Source;
use proto_file::own_faults;
use share_work::phases::DESCRIBING;
use share_work::{Gate, ItemWork, Plan, each_in_shares};
use std::alloc::{AllocError, AllocGlobal, Global};
use std::thread::Threads;

/// Finds the faults of each source by itself.
#[derive(Drop)]
struct Finding {
    limits: Limits,
}

impl<'s> ItemWork<Source<'s>> for Finding {
    ghost use Rattle.std.specs.Prelude.{⊤};
    ghost use Rattle.file_faults.specs.OwnFaults.{AreOwnFaults};

    type Out = Vec<FileFault>;

    ghost takes = { λ _ _ _. ⊤ };

    ghost gives = { λ work _ source found. AreOwnFaults work.limits source found.items };

    fn item(
        &self,
        alloc: Global,
        _position: usize,
        source: &Source<'s>,
    ) -> Result<Vec<FileFault>, AllocError> {
        own_faults(alloc, source.name, source.text, &self.limits)
    }
}

/// All faults that sources have by themselves (of each the first of its tokens, else that of the grammar, else each rule that one
/// file can break), in the order of the sources, and within one by place and then by the kind's number, each once.
///
/// Where the sources stand in the order of their names, no two have one and they are no more than the limit, these are in the order
/// of faults, and the first of them is the one that `compile` tells. Where there is any, they are then all faults of the sources.
///
/// Workers share the sources in phase `DESCRIBING` of the gate. What the plan and the gate are changes nothing of the answer.
pub fn faults_of_files<R, G>(
    rt: &R,
    files: &[Source],
    limits: &Limits,
    plan: Plan,
    gate: &G,
) -> Result<Vec<Fault>, AllocError>
where
    R: Threads + AllocGlobal + Sync,
    G: Gate + Sync,
    ensures each { IfOk result (λ faults. AreFileFaults limits.now files.now
        (map told_by faults.items)) }
    ensures first { (sources : List Source) → length sources ≤ limit_of limits.now limit.Files
        → AreByName sources files.now
        → IfOk result (λ faults. (f : Fault) (rest : List Fault) → faults.items ≡ f ∷ rest
        → IsLeastFault limits.now sources (told_by f)) }
    ensures set { (sources : List Source) → length sources ≤ limit_of limits.now limit.Files
        → AreByName sources files.now
        → IfOk result (λ faults. faults.items ≢ []
        → AreAllFaults limits.now sources (map told_by faults.items)) }
    ensures order { NamesRise (map name_of files.now)
        → IfOk result (λ faults. AllPairs IsEarlier (map told_by faults.items)) }
{
    let work = Finding { limits: *limits };
    let found = each_in_shares(rt, plan, DESCRIBING, gate, files, &work)?;
    all_named(rt.alloc(), files, &found)
}
