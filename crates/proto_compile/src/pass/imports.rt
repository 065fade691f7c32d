//! The pass over imports.

ghost use Rattle.std.specs.Prelude.{List, IfOk, IfErr, map};
ghost use Rattle.proto_compile.specs.Descriptions.{Describe};
ghost use Rattle.proto_compile.specs.FaultSet.{IsLeastFault, TellsOf};
ghost use Rattle.proto_links.specs.Imports.{name_of};
ghost use Rattle.proto_base.specs.NameOrder.{NamesRise};
ghost use Rattle.proto_links.specs.Linked.{AreLinked};
ghost use Rattle.proto_compile.specs.declared.source.Source.{Source};
ghost use Rattle.proto_base.specs.declared.limits.Limits.{Limits};

use crate::error::{CompileError, refusal};
use crate::pass::Pass;
use proto_desc::file::FileDesc;
use proto_links::{LinkError, Links, link};
use std::alloc::Global;

/// The links of what sources describe.
pub(crate) fn link_all(alloc: Global, descs: &[FileDesc]) -> Result<Links, CompileError>
    requires { NamesRise (map name_of descs.now) }
    ensures linked { IfOk result (AreLinked descs.now) }
    ensures first { (limits : Limits) (sources files : List Source)
        → Describe limits sources files descs.now
        → IfErr result (TellsOf (IsLeastFault limits sources)) }
{
    match link(alloc, descs) {
        Ok(links) => Ok(links),
        Err(LinkError::NoMemory) => Err(CompileError::NoMemory),
        Err(LinkError::At(at, place, kind)) => {
            let file = descs[at].name.as_str();
            Err(refusal(alloc, Pass::Imports, file, place, kind))
        }
    }
}
