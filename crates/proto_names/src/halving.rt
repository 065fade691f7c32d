//! The entries of a name, found by halving among those that stand in the order of their names.

ghost use Rattle.std.specs.Prelude.{◌≡◌, ◌≢◌, ◌≤◌, length, All, MatchOption};
ghost use Rattle.std.specs.List.Sorted.{IsPartitionPoint};
ghost use Rattle.std.specs.Ordering.{nat_cmp, is_eq, is_lt, ordering_then};
ghost use Rattle.std.specs.declared.cmp.Ordering.TheVariants.{Less};
ghost use Rattle.proto_desc.specs.DeclaredNames.{scoped};
ghost use Rattle.proto_names.specs.Starts.{IsNowhere, IsStart};
ghost use Rattle.proto_names.specs.Keys.{at_key, hash_in};
ghost use Rattle.proto_names.specs.Hashes.{hash_of};
ghost use Rattle.proto_names.specs.Order.{AreInHashOrder, end_cmp, name_cmp};

use crate::collected::Collected;
use crate::keys::hash_in;
use crate::name_bytes::{NameBytes, compare_names};
use crate::names::Names;
use std::cmp::Ordering;

/// The order of the name that a key finds, and the name in a scope that has this hash.
fn compare_found(collected: &Collected, key: u64, hash: u32, scope: &str, name: &str) -> Ordering
    ensures { result ≡ ordering_then (nat_cmp (hash_in key) hash)
        (end_cmp (at_key collected.now key).name (scoped scope.now name.now)) }
{
    match hash_in(key).cmp(&hash) {
        Ordering::Equal => compare_names(collected.bytes(key), NameBytes::scoped(scope, name)),
        unequal => unequal,
    }
}

/// How many entries come before the name in a scope, which has this hash.
fn count_before(names: &Names, scope: &str, hash: u32, name: &str) -> usize
    requires hash { hash ≡ hash_of (scoped scope.now name.now) }
    requires order { AreInHashOrder names.now }
    ensures bound { result ≤ length names.now }
    ensures point { IsPartitionPoint (λ o. name_cmp o.name (scoped scope.now name.now) ≡ Less)
        (λ o. name_cmp o.name (scoped scope.now name.now) ≢ Less) names.now result }
{
    let collected = names.collected;
    names.keys.partition_point(
        |key: &u64| -> bool
            ensures { result ≡ is_lt (ordering_then (nat_cmp (hash_in key.now) hash)
                (end_cmp (at_key collected.entry.now key.now).name
                (scoped scope.entry.now name.entry.now))) }
        { compare_found(collected, *key, hash, scope, name).is_lt() },
    )
}

/// Where the entries of the name in a scope, which has this hash, begin.
pub(crate) fn start_by_halving(names: &Names, scope: &str, hash: u32, name: &str) -> Option<usize>
    requires hash { hash ≡ hash_of (scoped scope.now name.now) }
    requires order { AreInHashOrder names.now }
    ensures { MatchOption result (IsNowhere names.now (scoped scope.now name.now))
        (IsStart names.now (scoped scope.now name.now)) }
{
    let start = count_before(names, scope, hash, name);
    if start < names.len() && names.has_name(start, scope, name) {
        Some(start)
    } else {
        None
    }
}

/// How many of the entries have the name in a scope, where none comes before it, by halving.
pub(crate) fn count_named(names: &Names, scope: &str, name: &str) -> usize
    requires order { AreInHashOrder names.now }
    requires behind { All (λ o. name_cmp o.name (scoped scope.now name.now) ≢ Less) names.now }
    ensures bound { result ≤ length names.now }
    ensures point { IsPartitionPoint (λ o. o.name ≡ scoped scope.now name.now)
        (λ o. o.name ≢ scoped scope.now name.now) names.now result }
{
    let collected = names.collected;
    names.keys.partition_point(
        |key: &u64| -> bool
            ensures { result ≡ is_eq (end_cmp (at_key collected.entry.now key.now).name
                (scoped scope.entry.now name.entry.now)) }
        { compare_names(collected.bytes(*key), NameBytes::scoped(scope, name)).is_eq() },
    )
}
