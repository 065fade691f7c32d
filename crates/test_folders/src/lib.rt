//! Tests of the sources below a folder, on the system's folders and on feigned ones.
#![tactic(auto)]

#[cfg(test)]
mod tests;
