//! Tests of sources: their tokens, what files describe and the faults that limits make, and lists of files.
//!
//! They stand in a crate of their own, so that a file's descriptor is proved to be let go of once and not in each layer's
//! tests. Most sources and folders are rows of tests/sources.txt and tests/folders.txt.
#![tactic(auto)]

#[cfg(test)]
mod tests;
