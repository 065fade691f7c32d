//! Lists of items that trees are made of.

ghost use Rattle.std.specs.Prelude.{◌≡◌, ◌==◌, [], length};
ghost use Rattle.std.specs.Slice.Iter.{iter_rest};

use std::alloc::{AllocError, Global};
use std::marker::Model;
use std::slice;

/// A list of items, kept in a `Vec`. Contracts see it as the list, whatever its capacity is, so a
/// recursive type may hold rows of itself.
#[derive(Drop)]
pub struct Row<T> {
    items: Vec<T>,
}

impl<T> Model for Row<T> {
    ghost use Rattle.std.specs.Prelude.{List};

    ghost Value = { List T };

    ghost view = { λ row. row.items.items };
}

impl<T> Row<T> {
    /// A row of no items, which takes no memory.
    pub fn new(alloc: Global) -> Row<T>
        ensures { result ≡ [] }
    {
        Row {
            items: Vec::new(alloc),
        }
    }

    /// The row of the items of a `Vec`, which it keeps.
    pub fn from_vec(items: Vec<T>) -> Row<T>
        ensures { result ≡ items.items }
    {
        Row { items }
    }

    /// The items as a `Vec`.
    pub fn into_vec(self) -> Vec<T>
        ensures { result.items ≡ self }
    {
        self.items
    }

    /// The items in their order.
    pub fn as_slice(&self) -> &[T]
        ensures { result.now ≡ self.now }
    {
        self.items.as_slice()
    }

    /// The items, one after the other.
    pub fn iter(&self) -> slice::Iter<'_, T>
        ensures { iter_rest result ≡ self.now }
    {
        self.items.iter()
    }

    /// How many items there are.
    pub fn len(&self) -> usize
        ensures { result ≡ length self.now }
    {
        self.items.len()
    }

    /// Whether there is no item.
    pub fn is_empty(&self) -> bool
        ensures { result ≡ (length self.now == 0) }
    {
        self.items.is_empty()
    }
}
