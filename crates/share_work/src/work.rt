//! What workers do with a piece of items.

ghost use Rattle.std.specs.Prelude.{◌≡◌, ◌⊎◌, OnOk, ℕ, IfOk};
ghost use Rattle.share_work.specs.Shares.{AddsSome, GivesItems, TakesAll};

use std::alloc::{AllocError, Global};

/// What is done with one piece of items. It gives one `Out` for each item.
///
/// Contracts see in a seat a number and a set of pairs of numbers. A piece leaves the seat its number, and adds to its set what
/// its items add.
pub trait Work<T> {
    /// What one item gives.
    type Out;

    /// What a worker keeps from piece to piece.
    type Seat;

    // The items that it takes, each at its position.
    ghost takes: { Self → ℕ → T → Type 0 };

    // The seats that fit.
    ghost fits: { Self → Self.Seat → Type 0 };

    // The out that an item at a position may give.
    ghost gives: { Self → ℕ → T → Self.Out → Type 0 };

    // The number that a seat keeps.
    ghost number: { Self → Self.Seat → ℕ };

    // What a seat's set holds.
    ghost holds: { Self → Self.Seat → ℕ → ℕ → Type 0 };

    // What an item at a position adds.
    ghost adds: { Self → ℕ → T → ℕ → ℕ → Type 0 };

    /// Works on the items of one piece, the first of which stands at position `first` of all items. Where there is no memory, the
    /// seat fits all the same, and has gained nothing but what these items add.
    fn piece(
        &self,
        alloc: Global,
        seat: &mut Self::Seat,
        first: usize,
        items: &[T],
    ) -> Result<Vec<Self::Out>, AllocError>
        requires fits { fits self.now seat.old }
        requires takes { TakesAll (takes self.now) first items.now }
        ensures fits { fits self.now seat.new }
        ensures number { number self.now seat.new ≡ number self.now seat.old }
        ensures kept { (x n : ℕ) → holds self.now seat.old x n → holds self.now seat.new x n }
        ensures within { (x n : ℕ) → holds self.now seat.new x n
            → holds self.now seat.old x n ⊎ AddsSome (adds self.now) first items.now x n }
        ensures gained { OnOk result ((x n : ℕ) → AddsSome (adds self.now) first items.now x n
            → holds self.now seat.new x n) }
        ensures outs { IfOk result (λ v. GivesItems (gives self.now) first items.now v.items) };
}
