//! Files whose imports are found.

ghost use Rattle.std.specs.Prelude.{◌≡◌, ◌<◌, ℕ, IsTrue};
ghost use Rattle.bit_matrix.specs.Changes.{Has, columns_of};
ghost use Rattle.proto_links.specs.Linked.{count_of, rank_of, reach_of, sees};
ghost use Rattle.proto_links.specs.Whole.{AreReachesWhole, SeesOneOf};

use bit_matrix::BitMatrix;
use digraph::{Lists, Ranking};
use std::marker::Model;

/// A file, by its position in the list of files.
pub type FileId = usize;

/// The files that each file reaches and sees, and the order of a set of files. Contracts see it file by file, in the
/// order of the list that was linked.
#[derive(Drop)]
pub struct Links {
    pub(crate) ranking: Ranking,
    /// The position of each file in set order.
    pub(crate) positions: Vec<usize>,
    /// The files that the file at a position reaches, in set order.
    pub(crate) reach: Lists,
    /// The files that the file at a position sees.
    pub(crate) seen: BitMatrix,
}

impl Model for Links {
    ghost use Rattle.proto_links.specs.Linked.{Linked};

    ghost Value = { Linked };

    ghost use Rattle.proto_links.specs.Layout.{IsLaidOut, linked};
    ghost use Rattle.proto_links.specs.Whole.{AreOfFiles};

    ghost view = { linked };

    ghost invariant = { λ links. IsLaidOut links × AreOfFiles (linked links) };
}

impl Links {
    /// How many files there are.
    pub fn count(&self) -> usize
        ensures { result ≡ count_of self.now }
    {
        self.ranking.ranks.len()
    }

    /// A file's rank: 0 where it imports nothing, else one more than the greatest rank that it imports.
    pub fn rank(&self, file: FileId) -> usize
        requires { file < count_of self.now }
        ensures { result ≡ rank_of self.now file }
    {
        self.ranking.ranks[file]
    }

    /// The files by rank, and by name where ranks are the same.
    pub fn set_order(&self) -> &[FileId]
        ensures { result.now ≡ self.now.set_order }
    {
        self.ranking.order.as_slice()
    }

    /// The files that a file reaches by imports, in set order: itself is the last.
    pub fn reach(&self, file: FileId) -> &[FileId]
        requires { file < count_of self.now }
        ensures { result.now ≡ reach_of self.now file }
    {
        self.reach.get(self.positions[file])
    }

    /// A law: whatever files are linked, each reaches files alone, itself among them, and what those reach that it reaches;
    /// no list has a file twice, and what a file reaches is a part of the set order, which has every file.
    pub fn reaches_are_whole(&self)
        ensures { AreReachesWhole self.now }
    {
        let _ = &self.ranking;
    }

    /// Whether a file sees another one (language guide, "Importing Definitions"): itself, what it imports, and what the
    /// files that it sees import publicly.
    pub fn sees(&self, file: FileId, other: FileId) -> bool
        requires file { file < count_of self.now }
        requires other { other < count_of self.now }
        ensures { result ≡ sees self.now file other }
    {
        self.seen.contains(self.positions[file], other)
    }

    /// Whether a file sees one of the files of a row, in which these are set.
    pub fn sees_one_of(&self, file: FileId, files: &BitMatrix, row: usize) -> bool
        requires file { file < count_of self.now }
        requires row { row < files.now.rows }
        ensures one { IsTrue result → SeesOneOf self.now file files.now row }
        ensures each { (b : ℕ) → b < count_of self.now → b < columns_of files.now
            → IsTrue (sees self.now file b) → Has files.now row b → IsTrue result }
    {
        self.seen.meets(self.positions[file], files, row)
    }
}
