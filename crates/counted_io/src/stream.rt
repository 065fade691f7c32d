//! Readers and writers that tell, to contracts, what each of their calls did.

ghost use Rattle.std.specs.Prelude.{◌≡◌, ◌<◌, ◌-◌, ◌^◌};
ghost use Rattle.std.specs.Io.{ReadsAtMost, WritesAtMost};
ghost use Rattle.counted_io.specs.Streams.{Reads, Writes};
ghost use Rattle.counted_io.specs.Calls.{IsReadOnce, IsWrittenOnce, IsFlushedOnce};

use std::alloc::AllocError;
use std::io;
use thiserror::Error;

/// Why an exchange came to no end.
#[derive(Debug, Drop, PartialEq, Eq, Error)]
pub enum IoFault {
    /// A read failed. Nothing was written.
    #[error("device: input")]
    ReadFault,
    /// A write or a flush failed, after this many bytes of the response.
    #[error("device: output")]
    WriteFault { written: u64 },
    /// Nothing was written.
    #[error("out of memory")]
    NoMemory,
}

impl From<AllocError> for IoFault {
    ghost use Rattle.std.specs.Prelude.{◌≡◌};
    ghost use Rattle.counted_io.specs.declared.stream.IoFault.TheVariants.{NoMemory};

    ghost from_gives = { λ _ e. e ≡ NoMemory };

    fn from(_error: AllocError) -> IoFault {
        IoFault::NoMemory
    }
}

/// A reader whose calls are counted.
pub trait CountedRead {
    // What it did so far.
    ghost reads: { Self → Reads };

    /// Reads once, as std's `Read::read` does: bytes go to the front of `buffer`, and their count is the answer. Of some room
    /// none is used only at the end.
    fn read(&mut self, buffer: &mut [u8]) -> io::Result<usize>
        requires { (reads self.old).failures < 2 ^ 64 - 1 }
        ensures bound { ReadsAtMost result buffer.new }
        ensures once { IsReadOnce (reads self.old) (reads self.new) result buffer.new };

    /// What the last of its calls that failed said, where that is known.
    fn last_error(&self) -> Option<io::Error> {
        None
    }
}

/// A writer whose calls are counted. A write that takes no byte has failed, as has one that is refused.
pub trait CountedWrite {
    // What it did so far.
    ghost writes: { Self → Writes };

    /// Writes once, as std's `Write::write` does: the answer is how many of the first bytes of `buffer` were taken.
    fn write(&mut self, buffer: &[u8]) -> io::Result<usize>
        requires { (writes self.old).failures < 2 ^ 64 - 1 }
        ensures bound { WritesAtMost result buffer.now }
        ensures once { IsWrittenOnce (writes self.old) (writes self.new) result buffer.now };

    /// Hands on what was taken and is held back.
    fn flush(&mut self) -> io::Result<()>
        requires { (writes self.old).failures < 2 ^ 64 - 1 }
        ensures { IsFlushedOnce (writes self.old) (writes self.new) result };

    /// What the last of its calls that failed said, where that is known.
    fn last_error(&self) -> Option<io::Error> {
        None
    }
}
