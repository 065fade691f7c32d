//! Which root of a list first reaches each file, and which files each reply then carries.
//!
//! Workers find both over one table that they share.
#![tactic(auto)]

mod carrying;
mod laws;
mod marking;
mod mode;
mod replying;

pub use carrying::carried;
pub use laws::{carries_firsts, least_is_first, repeat_carries_roots};
pub use mode::Mode;
