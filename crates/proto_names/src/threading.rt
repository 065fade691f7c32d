//! Whether an index is made in threads.

/// Who makes an index.
#[derive(Clone, Copy, Debug, PartialEq, Eq)]
pub enum Threading {
    /// The calling thread, which starts no other.
    Alone,
    /// Threads that share the files.
    Shared,
}
