//! A matrix of bits.

ghost use Rattle.std.specs.Prelude.{◌≡◌, ◌↔◌, ◌+◌, ◌<◌, ◌≤◌, IsTrue, OnErr, OnOk, length};
ghost use Rattle.bit_matrix.specs.Bits.{has};
ghost use Rattle.bit_matrix.specs.Changes.{HasJoined, HasInserted, IsLonger, Meet, columns_of};
ghost use Rattle.bit_matrix.specs.Words.{AreJoined, AreSameOrApart};

use std::alloc::{AllocError, Global};
use std::marker::Model;

/// Rows of as many bits each. Their number of columns is rounded up to a multiple of 64.
#[derive(Drop)]
pub struct BitMatrix {
    rows: usize,
    /// How many words a row has.
    width: usize,
    /// The words of the rows, one row behind the other.
    words: Vec<u64>,
}

impl Model for BitMatrix {
    ghost use Rattle.std.specs.Prelude.{◌≡◌, ◌*◌, ◌<◌, length};
    ghost use Rattle.bit_matrix.specs.Bits.{Bits};

    ghost Value = { Bits };

    ghost view = { λ matrix. record {
      rows = matrix.rows;
      width = matrix.width;
      words = matrix.words.items;
    } };

    ghost invariant = { λ matrix. (0 < matrix.width)
        × (length matrix.words.items ≡ matrix.rows * matrix.width) };
}

impl BitMatrix {
    /// A matrix without rows, of at least so many columns. It takes no memory.
    pub fn new(alloc: Global, columns: usize) -> BitMatrix
        ensures rows { result.rows ≡ 0 }
        ensures columns { columns ≤ columns_of result }
    {
        BitMatrix {
            rows: 0,
            width: columns / 64 + 1,
            words: Vec::new(alloc),
        }
    }

    /// Appends a row of which no bit is set. Where there is no memory, the matrix stays as it was.
    pub fn push_row(&mut self) -> Result<(), AllocError>
        ensures pushed { OnOk result (IsLonger self.old self.new) }
        ensures unchanged { OnErr result (self.new ≡ self.old) }
    {
        self.words.resize(self.words.len() + self.width, 0)?;
        self.rows += 1;
        Ok(())
    }

    /// Sets a bit.
    pub fn insert(&mut self, row: usize, column: usize)
        requires row { row < self.old.rows }
        requires column { column < columns_of self.old }
        ensures { HasInserted self.old row column self.new }
    {
        self.words[row * self.width + column / 64] |= 1 << (column % 64);
    }

    /// Whether a bit is set.
    pub fn contains(&self, row: usize, column: usize) -> bool
        requires row { row < self.now.rows }
        requires column { column < columns_of self.now }
        ensures { result ≡ has self.now row column }
    {
        self.words[row * self.width + column / 64] >> (column % 64) & 1 == 1
    }

    /// Sets the bits in a row that are set in another one.
    pub fn join(&mut self, row: usize, other: usize)
        requires row { row < self.old.rows }
        requires other { other < self.old.rows }
        ensures { HasJoined self.old row other self.new }
    {
        let width = self.width;
        join_words(&mut self.words, row * width, other * width, width);
    }

    /// Whether a bit is set in a row and in a row of another matrix.
    pub fn meets(&self, row: usize, other: &BitMatrix, other_row: usize) -> bool
        requires row { row < self.now.rows }
        requires other { other_row < other.now.rows }
        ensures { IsTrue result ↔ Meet self.now row other.now other_row }
    {
        for word in 0..self.width.min(other.width) {
            let bits = self.words[row * self.width + word];
            if bits & other.words[other_row * other.width + word] != 0 {
                return true;
            }
        }
        false
    }
}

/// Sets the bits in so many words that are set in others, which are the same or apart.
fn join_words(words: &mut [u64], start: usize, others: usize, count: usize)
    requires start { start + count ≤ length words.old }
    requires others { others + count ≤ length words.old }
    requires apart { AreSameOrApart start others count }
    ensures { AreJoined words.old start others count words.new }
{
    for word in 0..count {
        words[start + word] |= words[others + word];
    }
}
