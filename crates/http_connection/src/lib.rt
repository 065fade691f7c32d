//! Connections over HTTP/1.1, on `hyper` and `tokio`: on each one request, which a `Responder` answers.
#![tactic(auto)]

mod answer;
mod arrivals;
mod bound;
mod connections;
mod fault;
mod journal;
mod limited;
mod noted;
mod options;
mod receive;
mod responder;
mod serve;
mod serve_fault;
mod service;
mod trouble;

pub use bound::Bound;
pub use fault::ConnectionFault;
pub use journal::{End, Ended, Journal, NoJournal, Progress};
pub use options::ServeOptions;
pub use responder::{Answered, Responder};
pub use serve::serve_connections;
pub use serve_fault::ServeFault;
pub use trouble::ServeTrouble;
