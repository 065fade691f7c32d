//! Directed graphs of numbered nodes: ranks, and what each node leads to.
//!
//! A graph is a slice of rows; row `a` has the successors of node `a`.
#![tactic(auto)]

mod closures;
mod lists;
mod marks;
mod ranks;
mod reachable;
mod renumber;
mod search;

pub use closures::reach_lists;
pub use lists::Lists;
pub use ranks::{Ranking, rank_nodes};
pub use reachable::{join_successors, reach_rows};
pub use renumber::{positions_of, renumber_rows, with_nodes};
pub use search::{mark_reached, predecessors};
