//! Two files, of which the first reaches both and the second itself.

ghost use Rattle.share_samples.specs.SmallReach.{two};

use share_work::Reach;

/// What the two files reach.
#[derive(Drop)]
pub struct Two;

impl Reach for Two {
    ghost use Rattle.std.specs.Prelude.{[], ◌∷◌};
    ghost use Rattle.share_samples.specs.SmallReach.{two, two_within, two_short, two_reflexive, two_transitive};

    ghost files = { λ _. 2 };

    ghost list = { λ _. two };

    fn count(&self) -> usize {
        2
    }

    fn reached(&self, root: usize, k: usize) -> Option<usize> {
        if root == 0 && k < 2 {
            Some(k)
        } else if root == 1 && k == 0 {
            Some(1)
        } else {
            None
        }
    }

    ghost within = { λ s r g h e. two_within r g e };

    ghost short = { λ s r h. two_short r };

    ghost reflexive = { λ s r h. two_reflexive r h };

    ghost transitive = { λ s r g h a b c. two_transitive r g h b c };
}
