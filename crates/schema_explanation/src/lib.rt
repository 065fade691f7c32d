//! What each kind of fault means, and each line with which a run ends that could not do its work: where it stands, and its cure.
#![tactic(auto)]

mod page;
mod table;
mod topic;

pub use page::explanation;
pub use topic::{Topic, topics};
