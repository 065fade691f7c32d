//! Where the entries of a hash begin. Entries stand in the order of their names' hashes, so a slot of hashes is a stretch
//! of them, and the entries of a name are found without a search.

ghost use Rattle.std.specs.Prelude.{◌≡◌, ◌↔◌, ◌-◌, ◌<◌, ◌≤◌, ◌++◌, length, replicate, IfOk, OnOk, IsTrue, MatchOption};
ghost use Rattle.proto_desc.specs.DeclaredNames.{scoped};
ghost use Rattle.proto_names.specs.Hashes.{hash_of, slot_of};
ghost use Rattle.proto_names.specs.Order.{AreInHashOrder};
ghost use Rattle.proto_names.specs.Runs.{at};
ghost use Rattle.proto_names.specs.Starts.{AreStarts, IsNowhere, IsStart};

use crate::halving::start_by_halving;
use crate::names::Names;
use std::alloc::{AllocError, Global};

/// For each slot how many entries stand before it, and after the last one how many there are.
#[derive(Drop)]
pub(crate) struct Starts {
    counts: Vec<u32>,
}

/// The slot of a hash, among so many. A larger hash has no smaller slot.
pub fn slot_of(count: usize, hash: u32) -> usize
    requires some { 0 < count }
    requires few { count < 4_294_967_296 }
    ensures slot { result ≡ slot_of count hash }
    ensures within { result < count }
{
    (hash as u64 * count as u64 / 4_294_967_296) as usize
}

/// Fills counts up to so many with a number, where there are fewer.
fn fill_to(counts: &mut Vec<u32>, len: usize, number: u32) -> Result<(), AllocError>
    ensures { OnOk result (counts.new.items ≡ counts.old.items
        ++ replicate (len - length counts.old.items) number) }
{
    if counts.len() < len {
        counts.resize(len, number)?;
    }
    Ok(())
}

/// How many entries there are for each slot.
const ENTRIES_IN_A_SLOT: usize = 4;

/// Where the slots of entries begin. Most slots' keys lie within one line of the processor's memory, and the slots
/// themselves take little of it.
pub(crate) fn starts_of(alloc: Global, names: &Names) -> Result<Starts, AllocError>
    requires order { AreInHashOrder names.now }
    requires many { length names.now ≤ 1_048_576 }
    ensures { IfOk result (λ starts. AreStarts names.now starts.counts.items) }
{
    let count = names.len() / ENTRIES_IN_A_SLOT + 1;
    let mut counts = Vec::with_capacity(alloc, count + 1)?;
    for position in 0..names.len() {
        let slot = slot_of(count, names.hash(position));
        fill_to(&mut counts, slot + 1, position as u32)?;
    }
    fill_to(&mut counts, count + 1, names.len() as u32)?;
    Ok(Starts { counts })
}

/// Whether the entry at a position has the name in a scope, by their hashes first.
fn is_match(names: &Names, position: usize, hash: u32, scope: &str, name: &str) -> bool
    requires position { position < length names.now }
    requires hash { hash ≡ hash_of (scoped scope.now name.now) }
    ensures { IsTrue result ↔ ((at names.now position).name ≡ scoped scope.now name.now) }
{
    names.hash(position) == hash && names.has_name(position, scope, name)
}

/// How many entries of a slot are looked at one by one, so that no choice of names makes finding one slow.
const MOST: usize = 16;

impl Starts {
    /// Where the entries of the name in a scope, which has this hash, begin.
    pub(crate) fn start_of(
        &self,
        names: &Names,
        scope: &str,
        hash: u32,
        name: &str,
    ) -> Option<usize>
        requires hash { hash ≡ hash_of (scoped scope.now name.now) }
        requires order { AreInHashOrder names.now }
        requires starts { AreStarts names.now self.now.counts.items }
        ensures { MatchOption result (IsNowhere names.now (scoped scope.now name.now))
            (IsStart names.now (scoped scope.now name.now)) }
    {
        let slot = slot_of(self.counts.len() - 1, hash);
        let start = self.counts[slot] as usize;
        let end = self.counts[slot + 1] as usize;
        for position in start..end {
            if position - start >= MOST {
                return start_by_halving(names, scope, hash, name);
            }
            if is_match(names, position, hash, scope, name) {
                return Some(position);
            }
        }
        None
    }
}
