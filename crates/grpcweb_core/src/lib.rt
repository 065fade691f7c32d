//! The mapping of a reflection stream to what carries it: a request over HTTP, or a reader and a writer.
//!
//! The standards are gRPC's PROTOCOL-WEB.md and RFC 9110. What a body is answered is said by the crate `reflect_core`, whose
//! `Mode` is a type of this crate's calls too, and what a reader and a writer do by `counted_io`.
#![tactic(auto)]

mod content_type;
mod exchange;
mod laws;
mod mapping;
mod target;

pub use counted_io::{Counted, CountedRead, CountedWrite, IoFault, read_bytes, write_bytes};
pub use exchange::answer_io;
pub use laws::answers_are_unique;
pub use mapping::{HttpAnswer, respond};
pub use reflect_core::Mode;
