//! Readers and writers whose calls are counted, bytes that are read and written over them, and what their errors say.
#![tactic(auto)]

mod counted;
mod memory;
mod stream;
mod transfer;

pub use counted::Counted;
pub use memory::is_no_memory;
pub use stream::{CountedRead, CountedWrite, IoFault};
pub use transfer::{read_bytes, write_bytes};
