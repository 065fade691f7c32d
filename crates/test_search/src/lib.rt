//! Tests of the search for the sources that others import.
#![tactic(auto)]

#[cfg(test)]
mod tests;
