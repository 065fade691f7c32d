//! The headline over a set of another compiler: what a request body over it is answered, whoever works on it.
#![tactic(auto)]

mod headline;

pub use headline::response_of_set;
