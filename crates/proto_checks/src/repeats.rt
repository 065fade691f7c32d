//! Numbers and texts that stand more than once in a list.

ghost use Rattle.std.specs.Prelude.{◌≡◌, IsTrue, OnOk, map, bytes_eq, nat_eq};
ghost use Rattle.std.specs.List.{list_any};
ghost use Rattle.proto_base.specs.Sets.{Gains};
ghost use Rattle.proto_base.specs.declared.kind.Kind.{Kind};
ghost use Rattle.proto_base.specs.declared.spot.Spot.{Spot};
ghost use Rattle.proto_checks.specs.Marks.{NumberTwice, TextTwice};

use crate::faults::put_fault;
use crate::marks::{HasText, MarkedNumber};
use proto_base::{Kind, Spot};
use std::alloc::{AllocError, Global};
use std::collections::BTreeSet;

/// Up to so many are compared one by one. This takes no memory, and of so few less time than a set.
pub(crate) const FEW: usize = 32;

/// The slots for lengths of texts. Of few texts, few share one.
const SLOTS: usize = 64;

/// Whether each number is above the one before it, as in most lists. Such numbers repeat nothing.
pub(crate) fn is_rising(numbers: &[MarkedNumber]) -> bool
    ensures { IsTrue result → (kind : Kind) (x : Spot) → NumberTwice kind numbers.now x → ⊥ }
{
    numbers.is_sorted_by(|a, b| a.number < b.number)
}

/// Whether a number is one of these.
fn number_stands_in(numbers: &[MarkedNumber], number: u128) -> bool
    ensures { result ≡ list_any (λ a. nat_eq a.number number) numbers.now }
{
    numbers.iter().any(|marked| marked.number == number)
}

/// Puts the numbers that earlier ones equal, each looked for among those before it.
fn put_few_numbers_twice(
    faults: &mut Vec<Spot>,
    kind: Kind,
    numbers: &[MarkedNumber],
) -> Result<(), AllocError>
    ensures { OnOk result (Gains (NumberTwice kind numbers.now) faults.old.items faults.new.items) }
{
    for index in 0..numbers.len() {
        let marked = numbers[index];
        if number_stands_in(&numbers[..index], marked.number) {
            put_fault(faults, marked.place, kind)?;
        }
    }
    Ok(())
}

/// Puts the numbers that earlier ones equal, whether they rise or not.
pub(crate) fn put_unordered_twice(
    alloc: Global,
    faults: &mut Vec<Spot>,
    kind: Kind,
    numbers: &[MarkedNumber],
) -> Result<(), AllocError>
    ensures { OnOk result (Gains (NumberTwice kind numbers.now) faults.old.items faults.new.items) }
{
    if numbers.len() <= FEW {
        return put_few_numbers_twice(faults, kind, numbers);
    }
    let mut seen = BTreeSet::new(alloc);
    for marked in numbers {
        if !seen.insert(marked.number)? {
            put_fault(faults, marked.place, kind)?;
        }
    }
    Ok(())
}

/// Puts the numbers that earlier ones equal.
pub(crate) fn put_numbers_twice(
    alloc: Global,
    faults: &mut Vec<Spot>,
    kind: Kind,
    numbers: &[MarkedNumber],
) -> Result<(), AllocError>
    ensures { OnOk result (Gains (NumberTwice kind numbers.now) faults.old.items faults.new.items) }
{
    if is_rising(numbers) {
        return Ok(());
    }
    put_unordered_twice(alloc, faults, kind, numbers)
}

/// Whether a text is that of one of these.
fn text_stands_in<T: HasText>(items: &[T], text: &str) -> bool
    ensures { result ≡ list_any (λ t. bytes_eq t.text text.now) (map T.mark items.now) }
{
    items.iter().any(|item| item.marked_text().text == text)
}

/// Puts the texts that earlier ones equal, each looked for among those before it.
fn put_few_texts_twice<T: HasText>(
    faults: &mut Vec<Spot>,
    kind: Kind,
    items: &[T],
) -> Result<(), AllocError>
    ensures { OnOk result (Gains (TextTwice kind (map T.mark items.now))
        faults.old.items faults.new.items) }
{
    // Most differ in length from all before them, and need no look at those.
    let mut is_taken = [false; SLOTS];
    for index in 0..items.len() {
        let marked = items[index].marked_text();
        let slot = marked.text.len() % SLOTS;
        if is_taken[slot] && text_stands_in(&items[..index], marked.text) {
            put_fault(faults, marked.place, kind)?;
        }
        is_taken[slot] = true;
    }
    Ok(())
}

/// Puts the texts that earlier ones equal.
pub(crate) fn put_texts_twice<T: HasText>(
    alloc: Global,
    faults: &mut Vec<Spot>,
    kind: Kind,
    items: &[T],
) -> Result<(), AllocError>
    ensures { OnOk result (Gains (TextTwice kind (map T.mark items.now))
        faults.old.items faults.new.items) }
{
    if items.len() <= FEW {
        return put_few_texts_twice(faults, kind, items);
    }
    let mut seen = BTreeSet::new(alloc);
    for item in items {
        let marked = item.marked_text();
        if !seen.insert(marked.text)? {
            put_fault(faults, marked.place, kind)?;
        }
    }
    Ok(())
}
