//! Work in shares, and tables of least numbers that threads share.
//!
//! A plan cuts items into pieces and deals the pieces out to workers. Each worker has a seat of its own. A table's seats post
//! numbers at words that all threads share, and each word keeps the least number posted there.
#![tactic(auto)]

mod each;
mod gate;
mod least;
mod least_table;
mod mark_table;
mod mark_view;
mod order;
pub mod phases;
mod plan;
mod reach;
mod shares;
mod views;
mod work;

pub use each::{ItemWork, each_in_shares};
pub use gate::{Gate, NoGate};
pub use least::Least;
pub use least_table::{LeastSeat, LeastTable, NONE};
pub use mark_table::{MarkSeat, MarkTable};
pub use mark_view::{Debt, MarkView};
pub use order::calls_replay;
pub use plan::{FEWEST_SHARED, Plan};
pub use reach::Reach;
pub use shares::in_shares;
pub use views::{Call, View};
pub use work::Work;
