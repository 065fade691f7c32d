//! The rule of a table of marks between any two atomic steps, and how each kind of step changes views.

ghost use Rattle.std.specs.Prelude.{Bool, true, ℕ};

use crate::mark_view::MarkView;
use crate::reach::Reach;
use atomic_table::{Join, Play, Split, TableRule};
use std::marker::{Brand, PhantomData};

/// The rule of the least numbers, and that each mark is posted or owed at all files that its root reaches.
pub(super) struct MarkRule<R>(PhantomData<R>);

impl<R: Reach> TableRule<(), MarkView, R> for MarkRule<R> {
    ghost use Rattle.share_work.specs.Marks.{mark_whole};
    ghost use Rattle.share_work.specs.MarkRule.{IsMarked};

    ghost holds = { λ reach s. IsMarked (R.files reach) (R.list reach) s.words s.views };

    ghost first = { λ reach. mark_whole };
}

/// The post at a mark's root: the view gains a call and a mark, and a debt where the root held more than the number.
pub(super) struct RootPosts;

impl Play<(), MarkView> for RootPosts {
    ghost use Rattle.std.specs.Prelude.{◌≡◌, ◌≤◌, ◌-◌};
    ghost use Rattle.share_work.specs.Views.{known};
    ghost use Rattle.share_work.specs.Steps.{with_root};

    ghost then = { λ s v found w. (found ≤ known (s.word - 1) v.0.least)
        × (w ≡ (with_root (s.word - 1) found s.first v.0, v.1)) };
}

/// Whether a debt is at its last position.
pub(super) trait Paid {
    ghost last: { Bool };
}

impl Paid for Brand {
    ghost last = { true };
}

/// The post at a debt's position, which goes on to the next one.
pub(super) struct Pays<G>(PhantomData<G>);

impl<G: Paid> Play<(), MarkView> for Pays<G> {
    ghost use Rattle.std.specs.Prelude.{◌≡◌, ◌-◌};
    ghost use Rattle.share_work.specs.Steps.{with_paid};

    ghost then = { λ s v found w. w ≡ (with_paid G.last (s.word - 1) found s.first v.0, v.1) };
}

/// A look that changes no view: it shows that a seat has no more parts than there are.
pub(super) struct MarkCounts;

impl Play<(), MarkView> for MarkCounts {
    ghost use Rattle.std.specs.Prelude.{◌≡◌, ◌≤◌, ◌^◌};

    ghost then = { λ s v found w. (v.0.least.parts ≤ 2 ^ 32) × (w ≡ v) };
}

/// How many parts a split gives away. It stands in a type, since a step of the base takes no operand.
pub(super) trait MarkGiven {
    ghost parts: { ℕ };
}

impl MarkGiven for Brand {
    ghost parts = { 1 };
}

/// A split.
pub(super) struct MarkCut<G>(PhantomData<G>);

impl<G: MarkGiven> Split<MarkView> for MarkCut<G> {
    ghost use Rattle.share_work.specs.Marks.{mark_left, mark_right};

    ghost left = { λ v. mark_left G.parts v };

    ghost right = { λ v. mark_right G.parts v };
}

/// A join.
pub(super) struct MarkUnite;

impl Join<MarkView> for MarkUnite {
    ghost use Rattle.share_work.specs.Marks.{mark_both};
    ghost use Rattle.share_work.specs.Steps.{mark_spent};

    ghost both = { λ v w. mark_both v w };

    ghost spent = { mark_spent };
}
