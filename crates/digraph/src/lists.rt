//! Lists that share what they have in common.

ghost use Rattle.std.specs.Prelude.{◌≡◌, ◌==◌, ◌<◌, ◌≤◌, ◌+◌, ◌++◌, ◌∷◌, [], OnOk, OnErr, List, ℕ, Contains, length, map, slice_index_or, IfOk};
ghost use Rattle.digraph.specs.Marks.{IsFrontOf};
ghost use Rattle.digraph.specs.Ranges.{Holds, name_of, range_of};
ghost use Rattle.digraph.specs.Renumbered.{node_at};

use std::alloc::{AllocError, Global};
use std::marker::Model;

/// Lists of numbers, by their positions. A list that goes on where the one before it ends takes the room of one number
/// more: a chain of lists, each with one number more than the last, takes the room of the longest.
#[derive(Drop)]
pub struct Lists {
    items: Vec<usize>,
    ranges: Vec<(usize, usize)>,
}

impl Model for Lists {
    ghost use Rattle.std.specs.Prelude.{List, ℕ, length};
    ghost use Rattle.digraph.specs.Ranges.{ranges_of, AreWithin};

    ghost Value = { List (List ℕ) };

    ghost view = { λ lists. ranges_of lists.items.items lists.ranges.items };

    ghost invariant = { λ lists. AreWithin (length lists.items.items) lists.ranges.items };
}

impl Lists {
    /// No lists.
    pub fn new(alloc: Global) -> Lists
        ensures { result ≡ [] }
    {
        Lists {
            items: Vec::new(alloc),
            ranges: Vec::new(alloc),
        }
    }

    /// How many lists there are.
    pub fn len(&self) -> usize
        ensures { result ≡ length self.now }
    {
        self.ranges.len()
    }

    /// Whether there is no list.
    pub fn is_empty(&self) -> bool
        ensures { result ≡ (length self.now == 0) }
    {
        self.ranges.is_empty()
    }

    /// The list at a position.
    pub fn get(&self, position: usize) -> &[usize]
        requires { position < length self.now }
        ensures { result.now ≡ slice_index_or self.now position [] }
    {
        let (start, size) = self.ranges[position];
        &self.items[start..start + size]
    }

    /// Appends a list. Where there is no memory, the lists stay as they were.
    pub fn push(&mut self, list: &[usize]) -> Result<(), AllocError>
        ensures appended { OnOk result (self.new ≡ self.old ++ list.now ∷ []) }
        ensures unchanged { OnErr result (self.new ≡ self.old) }
    {
        let start = put(&mut self.items, list)?;
        self.ranges.push((start, list.len()))?;
        Ok(())
    }

    /// Appends the list at a position with a number behind it, in constant time where that list ends the items. Where there
    /// is no memory, the lists stay as they were.
    pub(crate) fn push_extended(&mut self, position: usize, number: usize) -> Result<(), AllocError>
        requires { position < length self.old }
        ensures appended { OnOk result (self.new
            ≡ self.old ++ (slice_index_or self.old position [] ++ number ∷ []) ∷ []) }
        ensures unchanged { OnErr result (self.new ≡ self.old) }
    {
        let (start, size) = self.ranges[position];
        let start = put_extended(&mut self.items, start, size, number)?;
        self.ranges.push((start, size + 1))?;
        Ok(())
    }

    /// The lists with the name of each number in its position. What the lists share is named once.
    pub(crate) fn with_names(&self, alloc: Global, names: &[usize]) -> Result<Lists, AllocError>
        requires { (a k : ℕ) → a < length self.now → Contains (slice_index_or self.now a []) k
            → k < length names.now }
        ensures { IfOk result (λ named. named
            ≡ map (λ (list : List ℕ). map (node_at names.now) list) self.now) }
    {
        let items = named_items(alloc, &self.items, names)?;
        let mut ranges = Vec::with_capacity(alloc, self.ranges.len())?;
        ranges.extend_from_slice(&self.ranges)?;
        Ok(Lists { items, ranges })
    }
}

/// Puts a list at the end, and answers where it starts.
fn put(items: &mut Vec<usize>, list: &[usize]) -> Result<usize, AllocError>
    ensures holds { IfOk result (λ start. Holds items.new.items start list.now) }
    ensures kept { IsFrontOf items.old.items items.new.items }
{
    if let Some((last, prefix)) = list.split_last() {
        if items.as_slice().ends_with(prefix) {
            let start = items.len() - prefix.len();
            items.push(*last)?;
            return Ok(start);
        }
    }
    let start = items.len();
    items.extend_from_slice(list)?;
    Ok(start)
}

/// Puts a range of the items and a number behind it at the end, and answers where it starts.
fn put_extended(
    items: &mut Vec<usize>,
    start: usize,
    size: usize,
    number: usize,
) -> Result<usize, AllocError>
    requires { start + size ≤ length items.old.items }
    ensures holds { IfOk result (λ first. Holds items.new.items first
        (range_of items.old.items (start, size) ++ number ∷ [])) }
    ensures kept { IsFrontOf items.old.items items.new.items }
{
    let end = start + size;
    if end == items.len() {
        items.push(number)?;
        return Ok(start);
    }
    let first = items.len();
    items.extend_from_within(start..end)?;
    items.push(number)?;
    Ok(first)
}

/// The name of each item. An item without a name stays as it is: it stands in no list.
fn named_items(alloc: Global, items: &[usize], names: &[usize]) -> Result<Vec<usize>, AllocError>
    ensures { IfOk result (λ named. named.items ≡ map (name_of names.now) items.now) }
{
    let mut named = Vec::with_capacity(alloc, items.len())?;
    for item in items {
        named.push(names.get(*item).copied().unwrap_or(*item))?;
    }
    Ok(named)
}
