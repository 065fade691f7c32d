//! Tests of exchanges over readers and writers that fail, and of workers that wait for each other.
#![tactic(auto)]

#[cfg(test)]
mod tests;
