//! Rows of bits: sets of numbers that are joined and compared word by word.
#![tactic(auto)]

mod matrix;

pub use matrix::BitMatrix;
