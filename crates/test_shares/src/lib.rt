//! Tests of work in shares and of the tables that threads share, where threads wait for each other.
//!
//! They show what no contract says: that threads share, that workers have threads of their own, and that calls succeed.
#![tactic(auto)]

#[cfg(test)]
mod tests;
