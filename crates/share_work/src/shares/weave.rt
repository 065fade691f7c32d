//! The outs of all pieces, in the order of the items.

ghost use Rattle.std.specs.Prelude.{IfOk};
ghost use Rattle.share_work.specs.Shares.{GivesItems};
ghost use Rattle.share_work.specs.WorkerRows.{GivesRows};

use super::{Job, Row};
use crate::Work;
use std::alloc::AllocError;
use std::collections::VecDeque;

/// The outs of all pieces, in their order.
pub(super) fn woven<G, T, W: Work<T, Out = O>, O: Drop>(
    job: &Job<'_, G, T, W>,
    rows: VecDeque<Row<O>>,
) -> Result<Vec<O>, AllocError>
    requires { GivesRows (W.gives job.now.work.now) (λ v. v.items) (λ r. r.items)
        job.now.plan.workers job.now.plan.cut job.now.items.now 0 job.now.plan.workers rows.items }
    ensures { IfOk result (λ v. GivesItems (W.gives job.now.work.now) 0 job.now.items.now v.items) }
{
    let mut rows = rows;
    let mut all = Vec::with_capacity(job.alloc, job.items.len())?;
    for _piece in 0..job.items.len().div_ceil(job.plan.cut() as usize) {
        let Some(mut row) = rows.pop_front() else {
            unreachable!()
        };
        let Some(mut part) = row.pop_front() else {
            unreachable!()
        };
        all.append(&mut part)?;
        rows.push_back(row)?;
    }
    Ok(all)
}
