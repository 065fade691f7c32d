//! Whether a reply carries its root again.

/// Which files a reply carries, besides those that no reply before it had.
#[derive(Clone, Copy)]
pub enum Mode {
    /// None: a file goes with the first request that reaches it.
    Once,
    /// The request's root: a root goes with each request that it answers.
    Repeat,
}
