//! What compiles by itself is compiled the same where custom options are skipped: laws over the definitions.
#![tactic(auto)]

mod laws;

pub use laws::{files_stay, skipped_again_stays, sources_stay};
