//! Items with commas between them.

use proto_base::Span;
use proto_base::row::Row;

/// One item or more, with commas between them.
#[derive(Drop)]
pub struct Separated<T> {
    pub first: T,
    pub rest: Row<Next<T>>,
}

/// A comma and the item behind it.
#[derive(Drop)]
pub struct Next<T> {
    pub comma: Span,
    pub item: T,
}

/// The items of a list that are left, in their order.
#[derive(Drop)]
pub struct Items<'t, T> {
    first: Option<&'t T>,
    rest: &'t [Next<T>],
}

impl<'t, T> Iterator for Items<'t, T> {
    type Item = &'t T;

    ghost use Rattle.std.specs.Iterator.{YieldsFirstRef, item_count};
    ghost use Rattle.proto_tree.specs.Items.{items_left};

    ghost next_gives = { YieldsFirstRef items_left };

    ghost remaining = { item_count items_left };

    fn next(&mut self) -> Option<&'t T> {
        match self.first.take() {
            Some(first) => Some(first),
            None => {
                let (next, rest) = self.rest.split_first()?;
                self.rest = rest;
                Some(&next.item)
            }
        }
    }
}

impl<T> Separated<T> {
    ghost use Rattle.std.specs.Prelude.{◌≡◌};
    ghost use Rattle.proto_tree.specs.Items.{items_left};
    ghost use Rattle.proto_tree.specs.Lists.{separated};

    /// The items in their order.
    pub fn iter(&self) -> Items<'_, T>
        ensures { items_left result ≡ separated self.now }
    {
        Items {
            first: Some(&self.first),
            rest: self.rest.as_slice(),
        }
    }
}
