//! The HTTP service: reflection streams over HTTP/1.1.
//!
//! What becomes of a connection is said by the crate `http_connection`, and what its request is answered by `grpcweb_core`.
#![tactic(auto)]

mod line;
mod response;
mod service;
mod serving;

pub use http_connection::{Bound, ServeOptions};
pub use service::{EndedService, ReflectionService};
pub use serving::{serve, serve_with};
