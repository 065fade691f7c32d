//! The hashes of the names of scopes. Most names that are looked up are no scope's, and two bits tell so.

ghost use Rattle.std.specs.Prelude.{◌≡◌, ◌<◌, ◌≤◌, IfOk, length};
ghost use Rattle.bit_matrix.specs.Changes.{columns_of};
ghost use Rattle.proto_names.specs.ScopeHashes.{TellsScopes, tells};

use crate::hashing::spread;
use crate::names::Names;
use crate::starts::slot_of;
use crate::visible::Role;
use bit_matrix::BitMatrix;
use std::alloc::{AllocError, Global};

/// A row of bits, in which two slots of each of these hashes are set.
#[derive(Drop)]
pub(crate) struct ScopeHashes {
    bits: BitMatrix,
    slots: usize,
    ghost row: { 0 < bits.rows },
    ghost some: { 0 < slots },
    ghost few: { slots < 4_294_967_296 },
    ghost columns: { slots ≤ columns_of bits },
}

/// How many slots there are for each scope. Few are set then, and all of them take little of the processor's memory.
const SLOTS_OF_A_SCOPE: usize = 16;

/// How many slots there are at least. Where scopes are few, nearly no other name is taken for one then, and 8 kB still
/// stay in the processor's nearest memory.
const LEAST_SLOTS: usize = 65_536;

/// How many of the names are scopes'.
fn count_scopes(names: &Names) -> usize
    ensures { result ≤ length names.now }
{
    let mut count = 0;
    for position in 0..names.len() {
        count += usize::from(Role::Scope.fits(names.kind(position)));
    }
    count
}

impl ScopeHashes {
    /// The hashes of the scopes among entries.
    pub(crate) fn among(alloc: Global, names: &Names) -> Result<ScopeHashes, AllocError>
        requires { length names.now ≤ 1_048_576 }
        ensures { IfOk result (λ hashes. TellsScopes names.now hashes.bits hashes.slots) }
    {
        let slots = (count_scopes(names) * SLOTS_OF_A_SCOPE).max(LEAST_SLOTS);
        let mut bits = BitMatrix::new(alloc, slots);
        bits.push_row()?;
        for position in 0..names.len() {
            if Role::Scope.fits(names.kind(position)) {
                let hash = names.hash(position);
                bits.insert(0, slot_of(slots, hash));
                bits.insert(0, slot_of(slots, spread(hash)));
            }
        }
        Ok(ScopeHashes { bits, slots })
    }

    /// Whether the full name of a scope may have this hash.
    #[tactic(auto, unfolding(crate::specs::ScopeHashes::tells))]
    pub(crate) fn tells(&self, hash: u32) -> bool
        ensures { result ≡ tells self.now.bits self.now.slots hash }
    {
        self.bits.contains(0, slot_of(self.slots, hash))
            && self.bits.contains(0, slot_of(self.slots, spread(hash)))
    }
}
