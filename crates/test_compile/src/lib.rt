//! Tests of compiling lists of sources.
#![tactic(auto)]

#[cfg(test)]
mod tests;
