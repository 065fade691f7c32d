//! Sources with custom options left out: what is found on a shelf, and imports of what is not among the sources.
#![tactic(auto)]

mod blanks;
mod dropping;
mod finding;
mod laws;
mod names;
mod options;
mod shelf;

pub use dropping::drop_lost_imports;
pub use laws::lost_imports_keep_lengths;
pub use options::CustomOptions;
pub use shelf::Skipping;
