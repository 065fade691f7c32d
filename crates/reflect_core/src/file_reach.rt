//! Which files each file reaches, as a table of marks asks for it.

ghost use Rattle.std.specs.Prelude.{◌≡◌, ℕ, ◌<◌, length};
ghost use Rattle.proto_links.specs.Linked.{count_of, reach_of};
ghost use Rattle.proto_links.specs.Whole.{AreReachesWhole};

use proto_compilation::Compiled;
use proto_links::Links;
use share_work::Reach;

/// The links of files.
#[derive(Drop)]
pub(crate) struct FileReach<'c> {
    links: &'c Links,
    // A ghost fact holds in one way alone, and what is in a list may be so at several places.
    ghost whole: { ∥ AreReachesWhole links.now ∥₁ },
    ghost short: { (a : ℕ) → a < count_of links.now
        → length (reach_of links.now a) < 18446744073709551615 },
}

impl<'c> FileReach<'c> {
    pub(crate) fn new(compiled: &'c Compiled) -> FileReach<'c>
        ensures { result.links.now ≡ compiled.now.links }
    {
        let links = compiled.links();
        links.reaches_are_whole();
        compiled.is_sound();
        FileReach { links }
    }
}

impl Reach for FileReach<'_> {
    ghost use Rattle.proto_links.specs.Linked.{count_of, reach_of};
    ghost use Rattle.reflect_core.specs.ReachLaws as laws;

    ghost files = { λ reach. count_of reach.links.now };

    ghost list = { λ reach. reach_of reach.links.now };

    fn count(&self) -> usize {
        self.links.count()
    }

    fn reached(&self, root: usize, k: usize) -> Option<usize> {
        self.links.reach(root).get(k).copied()
    }

    ghost within = { λ reach. laws.within reach.links.now reach.whole };

    ghost short = { λ reach. reach.short };

    ghost reflexive = { λ reach. laws.reflexive reach.links.now reach.whole };

    ghost transitive = { λ reach. laws.transitive reach.links.now reach.whole };
}
