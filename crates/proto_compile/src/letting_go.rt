//! What becomes of descriptors whose bytes are written.

use crate::workers::{Leftovers, Workers};
use proto_base::row::Row;
use proto_desc::file::FileDesc;
use share_work::Gate;
use std::alloc::{AllocGlobal, Global};
use std::mem::{forget, replace};
use std::thread::{Threads, for_each_mut};

/// Lets go of what a file declares.
fn empty(alloc: Global, desc: &mut FileDesc) {
    drop(replace(&mut desc.messages, Row::new(alloc)));
    drop(replace(&mut desc.enums, Row::new(alloc)));
    drop(replace(&mut desc.services, Row::new(alloc)));
}

/// Lets go of descriptors in threads: their memory is given back by the workers that took it.
fn let_go<R, G>(workers: &Workers<'_, R, G>, descs: Vec<FileDesc>)
where
    R: Threads + AllocGlobal + Sync,
    G: Gate + Sync,
{
    let mut descs = descs;
    let alloc = workers.rt.alloc();
    let each = move |_: usize, desc: &mut FileDesc| empty(alloc, desc);
    let threads = workers.threads_for(descs.len());
    for_each_mut(workers.rt, descs.as_mut_slice(), threads, &each);
}

/// Lets go of descriptors, or forgets them.
pub(crate) fn leave<R, G>(workers: &Workers<'_, R, G>, descs: Vec<FileDesc>)
where
    R: Threads + AllocGlobal + Sync,
    G: Gate + Sync,
{
    match workers.leftovers {
        Leftovers::LetGo => let_go(workers, descs),
        Leftovers::Forgotten => forget(descs),
    }
}
