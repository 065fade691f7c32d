//! The headline: what sources are compiled to, and what a request body over them is answered, whoever works on it; and the
//! descriptor of one source.
#![tactic(auto)]

mod headline;
mod laws;
mod one_source;

pub use headline::{response_to_sources, set_of_sources};
pub use laws::headline_is_unique;
pub use one_source::describe;
