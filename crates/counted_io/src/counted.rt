//! Any reader or writer of std, with a count of its calls that failed, and what the last of these said.

ghost use Rattle.std.specs.Prelude.{◌≡◌, ◌++◌, ◌-◌, ◌<◌, ◌^◌, suc};
ghost use Rattle.counted_io.specs.Counting.{bytes_of, calls_of};

use crate::stream::{CountedRead, CountedWrite};
use http_server::Log;
use std::io::{self, ErrorKind, Read, Write};

/// A reader or a writer, how many of its calls have failed, and what the last of these said. The logs take no memory: proofs alone
/// read them.
#[derive(Drop)]
pub struct Counted<D> {
    inner: D,
    failures: u64,
    last_error: Option<io::Error>,
    given: Log<u8, ()>,
    calls: Log<usize, Option<usize>>,
    taken: Log<u8, ()>,
    unflushed: Log<u8, ()>,
}

/// Adds bytes to a log. At run time it does nothing.
fn log_bytes(log: &mut Log<u8, ()>, bytes: &[u8])
    ensures { bytes_of log.new.items ≡ bytes_of log.old.items ++ bytes.now }
{
    for byte in bytes {
        *log = log.and(byte, &());
    }
}

impl<D> Counted<D> {
    /// A reader or a writer of which no call has failed.
    pub fn new(inner: D) -> Counted<D>
        ensures inner { result.inner ≡ inner }
        ensures none { result.failures ≡ 0 }
    {
        Counted {
            inner,
            failures: 0,
            last_error: None,
            given: Log::new(),
            calls: Log::new(),
            taken: Log::new(),
            unflushed: Log::new(),
        }
    }

    /// How many of its calls have failed.
    pub fn failures(&self) -> u64
        ensures { result ≡ self.now.failures }
    {
        self.failures
    }

    /// Notes a call that failed.
    fn fail(&mut self, error: io::Error)
        requires { self.old.failures < 2 ^ 64 - 1 }
        ensures failures { self.new.failures ≡ suc self.old.failures }
        ensures inner { self.new.inner ≡ self.old.inner }
        ensures given { self.new.given ≡ self.old.given }
        ensures calls { self.new.calls ≡ self.old.calls }
        ensures taken { self.new.taken ≡ self.old.taken }
        ensures unflushed { self.new.unflushed ≡ self.old.unflushed }
    {
        self.failures += 1;
        self.last_error = Some(error);
    }
}

impl<I: Read> CountedRead for Counted<I> {
    ghost reads = { λ s. record {
      bytes = bytes_of s.given.items;
      calls = calls_of s.calls.items;
      failures = s.failures;
      left = I.remaining s.inner;
    } };

    fn read(&mut self, buffer: &mut [u8]) -> io::Result<usize> {
        let room = buffer.len();
        match self.inner.read(buffer) {
            Ok(count) => {
                log_bytes(&mut self.given, &buffer[..count]);
                self.calls = self.calls.and(&room, &Some(count));
                Ok(count)
            }
            Err(error) => {
                self.calls = self.calls.and(&room, &None);
                self.fail(error);
                Err(error)
            }
        }
    }

    fn last_error(&self) -> Option<io::Error> {
        self.last_error
    }
}

impl<O: Write> CountedWrite for Counted<O> {
    ghost writes = { λ s. record {
      bytes = bytes_of s.taken.items;
      unflushed = bytes_of s.unflushed.items;
      failures = s.failures;
      contents = O.contents s.inner;
    } };

    fn write(&mut self, buffer: &[u8]) -> io::Result<usize> {
        match self.inner.write(buffer) {
            Ok(0) => {
                self.fail(io::Error::from(ErrorKind::WriteZero));
                Ok(0)
            }
            Ok(count) => {
                log_bytes(&mut self.taken, &buffer[..count]);
                log_bytes(&mut self.unflushed, &buffer[..count]);
                Ok(count)
            }
            Err(error) => {
                self.fail(error);
                Err(error)
            }
        }
    }

    fn flush(&mut self) -> io::Result<()> {
        match self.inner.flush() {
            Ok(()) => {
                self.unflushed = Log::new();
                Ok(())
            }
            Err(error) => {
                self.fail(error);
                Err(error)
            }
        }
    }

    fn last_error(&self) -> Option<io::Error> {
        self.last_error
    }
}
