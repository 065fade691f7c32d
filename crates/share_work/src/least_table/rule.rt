//! The rule of a table of least numbers between any two atomic steps, and how each kind of step changes views.

ghost use Rattle.std.specs.Prelude.{ℕ};

use crate::views::View;
use atomic_table::{Join, Play, Split, TableRule};
use std::marker::{Brand, PhantomData};

/// Each word is the least number posted there. Word 0 of the base is the seat word, and a caller's word `w` is word `w + 1`.
pub(super) struct LeastRule;

impl TableRule<(), View, usize> for LeastRule {
    ghost use Rattle.share_work.specs.Views.{whole};
    ghost use Rattle.share_work.specs.Rule.{IsKept};

    ghost holds = { λ n s. IsKept n s.words s.views };

    ghost first = { λ n. whole };
}

/// A post: the view gains one call.
pub(super) struct Posts;

impl Play<(), View> for Posts {
    ghost use Rattle.std.specs.Prelude.{◌≡◌, ◌≤◌, ◌-◌};
    ghost use Rattle.share_work.specs.Views.{known, call, with_call};

    ghost then = { λ s v found w. (found ≤ known (s.word - 1) v.0)
        × (w ≡ (with_call v.0 (call (s.word - 1) found s.first), v.1)) };
}

/// A look at a word: the view gains one told pair.
pub(super) struct Looks;

impl Play<(), View> for Looks {
    ghost use Rattle.std.specs.Prelude.{◌≡◌, ◌≤◌, ◌-◌};
    ghost use Rattle.share_work.specs.Views.{known, with_told};

    ghost then = { λ s v found w. (found ≤ known (s.word - 1) v.0)
        × (w ≡ (with_told v.0 (s.word - 1) found, v.1)) };
}

/// A look that changes no view: it shows that a seat has no more parts than there are.
pub(super) struct Counts;

impl Play<(), View> for Counts {
    ghost use Rattle.std.specs.Prelude.{◌≡◌, ◌≤◌, ◌^◌};

    ghost then = { λ s v found w. (v.0.parts ≤ 2 ^ 32) × (w ≡ v) };
}

/// How many parts a split gives away. It stands in a type, since a step of the base takes no operand.
pub(super) trait Given {
    ghost parts: { ℕ };
}

impl Given for Brand {
    ghost parts = { 1 };
}

/// A split.
pub(super) struct Cut<G>(PhantomData<G>);

impl<G: Given> Split<View> for Cut<G> {
    ghost use Rattle.share_work.specs.Views.{left_of, right_of};

    ghost left = { λ v. left_of G.parts v };

    ghost right = { λ v. right_of G.parts v };
}

/// A join.
pub(super) struct Unite;

impl Join<View> for Unite {
    ghost use Rattle.share_work.specs.Views.{both_of};
    ghost use Rattle.share_work.specs.Steps.{spent};

    ghost both = { λ v w. both_of v w };

    ghost spent = { spent };
}
