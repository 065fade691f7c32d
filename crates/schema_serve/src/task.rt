//! What a run of `serve` is to do.

use grpcweb_core::Mode;
use http_connection::ServeOptions;
use share_work::Plan;

/// Where a service listens, and how it answers.
#[derive(Clone, Copy)]
pub struct ServeTask<'a> {
    /// An address and a port. At port 0 it listens at any free one.
    pub listen: &'a str,
    pub mode: Mode,
    pub plan: Plan,
    pub options: ServeOptions,
    /// With how many connections it ends. Without a count it ends only with a failure.
    pub connections: Option<u64>,
}
