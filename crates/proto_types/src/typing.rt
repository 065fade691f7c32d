//! Resolving the names of types in a file.

ghost use Rattle.std.specs.Prelude.{◌≡◌, ◌↔◌, ℕ, ◌<◌, List, AllPairs, Bool, Contains, IfErr, IfOk, OnOk, Some, true};
ghost use Rattle.std.specs.List.{AllZip};
ghost use Rattle.proto_base.specs.FileFaults.{TellsFirst};
ghost use Rattle.proto_base.specs.Least.{IsLeast, Precedes};
ghost use Rattle.proto_base.specs.declared.spot.Spot.{Spot};
ghost use Rattle.proto_desc.specs.Resolved.{file_resolved};
ghost use Rattle.proto_desc.specs.declared.file.FileDesc.{FileDesc};
ghost use Rattle.proto_links.specs.Linked.{count_of};
ghost use Rattle.proto_names.specs.Occurrences.{Occurrence};
ghost use Rattle.proto_names.specs.Resolution.{SeenBy};
ghost use Rattle.proto_names.specs.SeenAlike.{AreSeenAlike, IsSeen};
ghost use Rattle.proto_types.specs.References.{TypesBreak, references};
ghost use Rattle.proto_types.specs.Steps.{Finds};
ghost use Rattle.proto_types.specs.Typed.{IsTypedFile, Means};

use crate::filling::fill_file;
use crate::finder::Finder;
use crate::found::Found;
use crate::known_scopes::KnownScopes;
use crate::meaning::NamedType;
use crate::names::FileNames;
use proto_base::{FileError, ONLY_STEP, Spot, sort_spots};
use proto_desc::file::FileDesc;
use proto_desc::message::MessageDesc;
use proto_desc::service::ServiceDesc;
use proto_links::{FileId, Links};
use proto_names::NameIndex;
use std::alloc::{AllocError, Global};
use std::collections::VecDeque;

/// How many fields messages have, with those of the messages inside them.
fn count_fields(messages: &[MessageDesc]) -> usize {
    let mut count: usize = 0;
    for message in messages {
        count = count
            .saturating_add(message.fields.len())
            .saturating_add(count_fields(message.nested.as_slice()));
    }
    count
}

/// How many methods services have.
fn count_methods(services: &[ServiceDesc]) -> usize {
    let mut count: usize = 0;
    for service in services {
        count = count.saturating_add(service.methods.len());
    }
    count
}

/// Finds what the names of types that a file spells mean, and what is wrong with them, among the names that it sees.
fn find_types(
    alloc: Global,
    index: &NameIndex,
    links: &Links,
    file: FileId,
    desc: &FileDesc,
    found: &mut Found,
) -> Result<(), AllocError>
    requires links { count_of links.now ≡ index.now.files }
    requires file { file < index.now.files }
    ensures { OnOk result (Finds index.now.occurrences (SeenBy links.now file) (references desc.now)
        found.old found.new) }
{
    let count = count_fields(desc.messages.as_slice()).saturating_add(count_methods(
        desc.services.as_slice(),
    ));
    let names = FileNames::new(alloc, index, links, file, desc.scope(), count)?;
    let known = KnownScopes::new(alloc);
    let mut finder = Finder {
        alloc,
        names,
        known,
    };
    finder.file(desc, found)
}

/// What each name of a type that a file spells means, in the order in which the file names them, among the names that the
/// file sees.
///
/// An error tells the first fault of the file's types, by place, then by the number of its kind: `TypeNotFound`,
/// `TypeNotMessage` for a method's type that is an enum, or `PackedOnMessage`. `NoMemory` comes only where the allocator had none.
pub fn resolve_types(
    alloc: Global,
    index: &NameIndex,
    links: &Links,
    file: FileId,
    desc: &FileDesc,
) -> Result<Vec<NamedType>, FileError>
    requires links { count_of links.now ≡ index.now.files }
    requires file { file < index.now.files }
    ensures types { IfOk result (λ types. AllZip
        (Means index.now.occurrences (SeenBy links.now file)) (references desc.now) types.items) }
    ensures whole { OnOk result ((x : Spot)
        → TypesBreak index.now.occurrences (SeenBy links.now file) desc.now x → ⊥) }
    ensures first { IfErr result (TellsFirst (λ f. (f.step ≡ 0)
        × IsLeast (TypesBreak index.now.occurrences (SeenBy links.now file) desc.now)
        (Some f.spot))) }
{
    let mut found = Found::new(alloc);
    find_types(alloc, index, links, file, desc, &mut found)?;
    sort_spots(&mut found.faults);
    match found.faults.first() {
        None => Ok(found.types),
        Some(fault) => Err(FileError::at(ONLY_STEP, *fault)),
    }
}

/// All faults of a file's types: by place, then by the number of the kind, each once. `resolve_types` tells the first
/// of them. Only memory can be refused.
pub fn type_faults(
    alloc: Global,
    index: &NameIndex,
    links: &Links,
    file: FileId,
    desc: &FileDesc,
) -> Result<Vec<Spot>, AllocError>
    requires links { count_of links.now ≡ index.now.files }
    requires file { file < index.now.files }
    ensures all { IfOk result (λ faults. (x : Spot) → Contains faults.items x
        ↔ TypesBreak index.now.occurrences (SeenBy links.now file) desc.now x) }
    ensures order { IfOk result (λ faults. AllPairs Precedes faults.items) }
{
    let mut found = Found::new(alloc);
    find_types(alloc, index, links, file, desc, &mut found)?;
    sort_spots(&mut found.faults);
    Ok(found.faults)
}

/// Puts what a file's names of types mean in their place, and leaves all else as it is. It takes no memory.
pub fn fill_types<'s>(desc: &mut FileDesc<'s>, types: Vec<NamedType>)
    ensures typed { (os : List Occurrence) (seen : ℕ → Bool)
        → AllZip (Means os (IsSeen seen)) (references desc.old) types.items
        → IsTypedFile os (IsSeen seen) desc.old desc.new }
    ensures resolved { (os : List Occurrence) (seen : ℕ → Bool)
        → AllZip (Means os (IsSeen seen)) (references desc.old) types.items
        → file_resolved desc.new ≡ true }
{
    let alloc = *types.allocator();
    fill_file(alloc, desc, &mut VecDeque::from(types));
}

/// A file with its types resolved is one file: the same occurrences, as far as they are seen, give one, and break the
/// same rules.
pub fn typing_is_unique()
    ensures one { (os ps : List Occurrence) (seen sees : ℕ → Bool) (f g h : FileDesc)
        → AreSeenAlike os (IsSeen seen) ps (IsSeen sees)
        → IsTypedFile os (IsSeen seen) f g → IsTypedFile ps (IsSeen sees) f h → g ≡ h }
    ensures breaks { (os ps : List Occurrence) (seen sees : ℕ → Bool) (f : FileDesc) (x : Spot)
        → AreSeenAlike os (IsSeen seen) ps (IsSeen sees)
        → TypesBreak os (IsSeen seen) f x → TypesBreak ps (IsSeen sees) f x }
{}
