//! Shares of names, by their hashes. All occurrences of one name are in one share.

ghost use Rattle.std.specs.Prelude.{◌≡◌, ◌==◌, ◌<◌, ◌%◌};

use crate::parts::THREADS;

/// How many shares there are, where there is more than one.
const SHARES: usize = THREADS as usize;

/// The position of the share of a hash, among so many. A remainder by a constant is compiled without a division.
pub(crate) fn share_of_hash(hash: u32, count: usize) -> usize
    requires { 0 < count }
    ensures { result ≡ hash % count }
{
    match count {
        1 => 0,
        SHARES => hash as usize % SHARES,
        _ => hash as usize % count,
    }
}

/// One of so many shares: the names whose hashes leave its position as remainder.
#[derive(Clone, Copy)]
pub(crate) struct Share {
    pub(crate) position: u32,
    pub(crate) count: u32,
    ghost within: { position < count },
}

impl Share {
    /// Whether a name of this hash is in the share.
    pub(crate) fn has(self, hash: u32) -> bool
        ensures { result ≡ (hash % self.count == self.position) }
    {
        share_of_hash(hash, self.count as usize) == self.position as usize
    }
}
