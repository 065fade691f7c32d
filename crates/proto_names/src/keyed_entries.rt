//! Entries that are found by keys.

ghost use Rattle.std.specs.Prelude.{◌≡◌, ◌≤◌, length, IfOk, IsPermutation};
ghost use Rattle.proto_names.specs.Order.{AreInOrder};
ghost use Rattle.proto_names.specs.Shares.{all_of, share_of};

use crate::collected::Collected;
use crate::keys::{keys_of, sort_keys};
use crate::names::Names;
use crate::share::Share;
use std::alloc::{AllocError, Global};
use std::marker::Model;
use std::sync::Arc;

/// Keys, and the entries that all tables share. Contracts see them as the occurrences that the keys find, in the order of
/// these.
#[derive(Drop)]
pub(crate) struct KeyedEntries {
    collected: Arc<Collected>,
    keys: Vec<u64>,
}

impl Model for KeyedEntries {
    ghost use Rattle.std.specs.Prelude.{List};
    ghost use Rattle.proto_names.specs.Keys.{AreKeysAmong, found_by};
    ghost use Rattle.proto_names.specs.Occurrences.{Occurrence};

    ghost Value = { List Occurrence };

    ghost view = { λ keyed. found_by keyed.collected.value keyed.keys.items };

    ghost invariant = { λ keyed. AreKeysAmong keyed.collected.value keyed.keys.items };
}

impl KeyedEntries {
    /// The entries of a share, in the order in which they were collected.
    pub(crate) fn of_share(
        alloc: Global,
        collected: &Arc<Collected>,
        share: Share,
    ) -> Result<KeyedEntries, AllocError>
        requires parts { length collected.now.value ≤ 4096 }
        requires few { length (all_of collected.now.value) ≤ 1_048_576 }
        ensures { IfOk result (λ keyed. keyed
            ≡ share_of share.count share.position (all_of collected.now.value)) }
    {
        Ok(KeyedEntries {
            keys: keys_of(alloc, collected, share)?,
            collected: Arc::try_clone(collected)?,
        })
    }

    /// Sorts the entries by the hashes of their names, then by name, file and place.
    pub(crate) fn sorted(self, alloc: Global) -> Result<KeyedEntries, AllocError>
        ensures all { IfOk result (λ sorted. IsPermutation self sorted) }
        ensures order { IfOk result (λ sorted. AreInOrder sorted) }
    {
        let KeyedEntries {
            collected,
            mut keys,
        } = self;
        sort_keys(alloc, &collected, &mut keys)?;
        Ok(KeyedEntries { collected, keys })
    }

    /// The names of the entries, in their order.
    pub(crate) fn names(&self) -> Names<'_>
        ensures { result ≡ self.now }
    {
        Names::new(&self.collected, self.keys.as_slice())
    }
}
