//! A work, the seats of two workers and a small reach, for tests of the tables that threads share.
#![tactic(auto)]

pub mod posting;
pub mod two_files;
