//! The files that each reply carries.

ghost use Rattle.std.specs.Prelude.{◌≡◌, ◌<◌, All, IfOk, map};
ghost use Rattle.std.specs.Option.{ForSome};
ghost use Rattle.first_reach.specs.Carried.{carried};

use crate::marking::firsts;
use crate::mode::Mode;
use crate::replying::Replying;
use share_work::phases::REPLYING;
use share_work::{Gate, Plan, Reach, each_in_shares};
use std::alloc::{AllocError, AllocGlobal};
use std::thread::Threads;

/// The files that each reply carries, where the requests' roots are answered one after another.
///
/// Workers find them, with no order between them and no set of what was sent: in phase `MARKING` of the gate they mark the
/// roots in a table that they share, and in phase `REPLYING` they list each reply by itself, from the first root that
/// reaches each file.
pub fn carried<R, G, F>(
    rt: &R,
    reach: &F,
    plan: Plan,
    gate: &G,
    mode: Mode,
    roots: &[Option<usize>],
) -> Result<Vec<Vec<usize>>, AllocError>
where
    R: Threads + AllocGlobal + Sync,
    G: Gate + Sync,
    F: Reach + Sync,
    requires { All (λ root. ForSome root (λ r. r < F.files reach.now)) roots.now }
    ensures { IfOk result (λ lists. map (λ files. files.items) lists.items
        ≡ carried mode (F.list reach.now) roots.now) }
{
    let least = firsts(rt, reach, plan, gate, roots)?;
    let work = Replying {
        reach,
        least: &least,
        mode,
    };
    each_in_shares(rt, plan, REPLYING, gate, roots, &work)
}
