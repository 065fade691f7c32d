//! The types that files name, put into their descriptors by workers.

ghost use Rattle.std.specs.Prelude.{◌≡◌, ◌<◌, ℕ, IfOk, length, map, slice_index_or};
ghost use Rattle.proto_compile.specs.Analysed.{AllZipFrom};
ghost use Rattle.proto_compile.specs.Outcomes.{AreTypesOf, IsTypedWhole};
ghost use Rattle.share_work.specs.Shares.{GivesItems};
ghost use Rattle.proto_links.specs.Linked.{Linked};
ghost use Rattle.proto_names.specs.Index.{Index};

use crate::workers::Workers;
use proto_desc::file::FileDesc;
use proto_types::{NamedType, fill_types};
use share_work::Gate;
use std::alloc::{AllocError, AllocGlobal, Global};
use std::thread::Threads;
use std::{mem, thread};

/// A descriptor, and what the names of types in it mean.
#[derive(Drop)]
struct Untyped<'s> {
    desc: FileDesc<'s>,
    types: Vec<NamedType>,
}

/// Puts what the names mean into the descriptor.
fn fill(file: &mut Untyped)
    ensures { (links : Linked) (index : Index) (a : ℕ)
        → AreTypesOf links index a file.old.desc file.old.types
        → IsTypedWhole links index a file.old.desc file.new.desc }
{
    let none = Vec::new(*file.types.allocator());
    let types = mem::replace(&mut file.types, none);
    fill_types(&mut file.desc, types);
}

/// Descriptors, each with its list of types.
fn with_types<'s>(
    alloc: Global,
    descs: Vec<FileDesc<'s>>,
    types: Vec<Vec<NamedType>>,
) -> Result<Vec<Untyped<'s>>, AllocError>
    ensures { IfOk result (λ files. length types.items ≡ length descs.entry.items
        → (map (λ f. f.desc) files.items ≡ descs.entry.items)
        × (map (λ f. f.types) files.items ≡ types.items)) }
{
    let mut files = Vec::with_capacity(alloc, descs.len())?;
    for (desc, types) in descs.into_iter().zip(types) {
        files.push(Untyped { desc, types })?;
    }
    Ok(files)
}

/// The descriptors of files.
fn descriptors<'s>(alloc: Global, files: Vec<Untyped<'s>>) -> Result<Vec<FileDesc<'s>>, AllocError>
    ensures { IfOk result (λ descs. descs.items ≡ map (λ f. f.desc) files.entry.items) }
{
    let mut descs = Vec::with_capacity(alloc, files.len())?;
    for file in files {
        descs.push(file.desc)?;
    }
    Ok(descs)
}

/// Puts the types of each file into its descriptor, in at most so many threads.
fn fill_all<R: Threads + Sync>(rt: &R, files: &mut [Untyped], threads: usize)
    requires { 0 < threads }
    ensures size { length files.new ≡ length files.old }
    ensures each { (i : ℕ) (d : Untyped) → i < length files.old
        → (links : Linked) (index : Index) (a : ℕ)
        → AreTypesOf links index a (slice_index_or files.old i d).desc
        (slice_index_or files.old i d).types
        → IsTypedWhole links index a (slice_index_or files.old i d).desc
        (slice_index_or files.new i d).desc }
{
    let fill_one = |_: usize, file: &mut Untyped|
        ensures { (links : Linked) (index : Index) (a : ℕ)
            → AreTypesOf links index a file.entry.now.desc file.entry.now.types
            → IsTypedWhole links index a file.entry.now.desc file.exit.now.desc }
    { fill(file) };
    thread::for_each_mut(rt, files, threads, &fill_one);
}

/// Puts types into descriptors, of which there is one list for each. One worker starts no thread, nor do few files.
pub(crate) fn put_types<'s, R, G>(
    workers: &Workers<'_, R, G>,
    descs: Vec<FileDesc<'s>>,
    types: Vec<Vec<NamedType>>,
) -> Result<Vec<FileDesc<'s>>, AllocError>
where
    R: Threads + AllocGlobal + Sync,
    G: Gate + Sync,
    ensures { IfOk result (λ typed. (links : Linked) (index : Index)
        → GivesItems (AreTypesOf links index) 0 descs.entry.items types.items
        → AllZipFrom (IsTypedWhole links index) 0 descs.entry.items typed.items) }
{
    let alloc = workers.rt.alloc();
    let mut files = with_types(alloc, descs, types)?;
    let threads = workers.threads_for(files.len());
    fill_all(workers.rt, files.as_mut_slice(), threads);
    descriptors(alloc, files)
}
