//! Keys, by which entries are found and ordered: the hash of an entry's name, and below it where the entry was collected. So
//! entries are put in order without moving one, and most are compared without a look at them.

ghost use Rattle.std.specs.Prelude.{◌≡◌, ◌+◌, ◌<◌, ◌≤◌, ◌%◌, ◌/◌, ◌^◌, IfOk, IsPermutation, IsSorted, OnOk, length, take};
ghost use Rattle.proto_names.specs.Keys.{AreKeysOf, hash_in, index_in, key_cmp, part_at, part_in};
ghost use Rattle.proto_names.specs.Shares.{all_of, share_of};

use crate::collected::Collected;
use crate::name_bytes::compare_names;
use crate::share::Share;
use std::alloc::{AllocError, Global};
use std::cmp::Ordering;

/// More than any index of an entry in its part.
const INDEXES: u64 = 1_048_576;

/// More than the number of any part.
const PARTS: u64 = 4096;

/// The index of a key's entry in its part.
pub(crate) fn index_in(key: u64) -> usize
    ensures { result ≡ index_in key }
{
    (key % INDEXES) as usize
}

/// The number of the part of a key's entry.
pub(crate) fn part_in(key: u64) -> usize
    ensures { result ≡ part_in key }
{
    (key / INDEXES % PARTS) as usize
}

/// The hash of the name of a key's entry.
pub(crate) fn hash_in(key: u64) -> u32
    ensures { result ≡ hash_in key }
{
    (key / (INDEXES * PARTS)) as u32
}

/// The key of an entry, by its name's hash.
fn key_of(hash: u32, part: usize, index: usize) -> u64
    requires part { part < 4096 }
    requires index { index < 1_048_576 }
    ensures hash { hash_in result ≡ hash }
    ensures part { part_in result ≡ part }
    ensures index { index_in result ≡ index }
{
    (u64::from(hash) * PARTS + part as u64) * INDEXES + index as u64
}

/// Puts the keys of those entries of a part that are in a share behind those of the parts before.
fn put_keys(
    keys: &mut Vec<u64>,
    collected: &Collected,
    part: usize,
    share: Share,
) -> Result<(), AllocError>
    requires part { part < length collected.now }
    requires parts { length collected.now ≤ 4096 }
    requires few { length (part_at collected.now part) ≤ 1_048_576 }
    requires before { AreKeysOf
        (share_of share.count share.position (all_of (take part collected.now))) collected.now
        keys.old.items }
    ensures { OnOk result (AreKeysOf
        (share_of share.count share.position (all_of (take (part + 1) collected.now))) collected.now
        keys.new.items) }
{
    let entries = &collected.parts[part];
    for index in 0..entries.len() {
        let hash = entries.hash(index);
        if share.has(hash) {
            keys.push(key_of(hash, part, index))?;
        }
    }
    Ok(())
}

/// The keys of the entries that are in a share, in the order in which these were collected.
pub(crate) fn keys_of(
    alloc: Global,
    collected: &Collected,
    share: Share,
) -> Result<Vec<u64>, AllocError>
    requires parts { length collected.now ≤ 4096 }
    requires few { length (all_of collected.now) ≤ 1_048_576 }
    ensures { IfOk result (λ keys. AreKeysOf
        (share_of share.count share.position (all_of collected.now)) collected.now keys.items) }
{
    let mut keys = Vec::new(alloc);
    for part in 0..collected.parts.len() {
        put_keys(&mut keys, collected, part, share)?;
    }
    Ok(keys)
}

/// The order of what keys find: by the hash, then by name, file and place. The hash comes first, so that few names are
/// compared.
fn compare_keys(collected: &Collected, first: u64, second: u64) -> Ordering
    ensures { result ≡ key_cmp collected.now first second }
{
    match hash_in(first).cmp(&hash_in(second)) {
        Ordering::Equal => {
            let names = compare_names(collected.bytes(first), collected.bytes(second));
            names.then(collected.location(first).cmp(&collected.location(second)))
        }
        unequal => unequal,
    }
}

/// Sorts keys by what they find, in place. As numbers they are sorted first, which is fast. What is left are the names of one
/// hash, and the second sort keeps the long runs that are in order.
pub(crate) fn sort_keys(
    alloc: Global,
    collected: &Collected,
    keys: &mut [u64],
) -> Result<(), AllocError>
    ensures all { IsPermutation keys.old keys.new }
    ensures len { length keys.new ≡ length keys.old }
    ensures order { OnOk result (IsSorted (key_cmp collected.now) keys.new) }
{
    keys.sort_unstable();
    keys.sort_by(
        alloc,
        |first: &u64, second: &u64| -> Ordering
            ensures { result ≡ key_cmp collected.entry.now first.now second.now }
        { compare_keys(collected, *first, *second) },
    )
}
