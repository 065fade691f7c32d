//! Tests of bytes: varints and fields, requests and frames.
#![tactic(auto)]

#[cfg(test)]
mod tests;
