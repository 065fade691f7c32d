//! Bytes that are read to an end, and bytes that are written whole.

ghost use Rattle.std.specs.Prelude.{◌≡◌, ◌-◌, ◌<◌, ◌≤◌, ◌^◌, length};
ghost use Rattle.counted_io.specs.Filling.{IsFilled};
ghost use Rattle.counted_io.specs.Runs.{IsFewMore, IsReadRun, IsWriteRun};

use crate::stream::{CountedRead, CountedWrite, IoFault};
use std::alloc::Global;

/// Reads until nothing comes or the room is full, and tells how many bytes came.
fn fill<I: CountedRead>(reader: &mut I, room: &mut [u8]) -> Result<usize, IoFault>
    requires { (I.reads reader.old).failures < 2 ^ 64 - 1 }
    ensures filled { IsFilled (I.reads reader.old) (I.reads reader.new) room.new result }
    ensures few { IsFewMore (length room.old) (I.reads reader.old) (I.reads reader.new) }
    ensures len { length room.new ≡ length room.old }
{
    let mut filled = 0;
    while filled < room.len() {
        match reader.read(&mut room[filled..]) {
            Ok(0) => return Ok(filled),
            Ok(count) => filled += count,
            Err(_) => return Err(IoFault::ReadFault),
        }
    }
    Ok(filled)
}

/// The bytes of a reader to its end, or so many of them. The first call of it that fails ends it.
pub fn read_bytes<I: CountedRead>(
    alloc: Global,
    reader: &mut I,
    most: usize,
) -> Result<Vec<u8>, IoFault>
    requires { (I.reads reader.old).failures < 2 ^ 64 - 1 }
    ensures run { IsReadRun most (I.reads reader.old) (I.reads reader.new) result }
    ensures few { IsFewMore most (I.reads reader.old) (I.reads reader.new) }
{
    let mut bytes = vec![in alloc; 0u8; most]?;
    let len = fill(reader, &mut bytes)?;
    bytes.truncate(len);
    Ok(bytes)
}

/// Writes all of these bytes, and flushes them. The first call of the writer that fails ends it.
pub fn write_bytes<O: CountedWrite>(writer: &mut O, bytes: &[u8]) -> Result<(), IoFault>
    requires { (O.writes writer.old).failures < 2 ^ 64 - 1 }
    ensures { IsWriteRun (O.writes writer.old) (O.writes writer.new) bytes.now result }
{
    let mut written = 0;
    while written < bytes.len() {
        match writer.write(&bytes[written..]) {
            Ok(0) | Err(_) => return Err(IoFault::WriteFault {
                written: written as u64,
            }),
            Ok(count) => written += count,
        }
    }
    match writer.flush() {
        Ok(()) => Ok(()),
        Err(_) => Err(IoFault::WriteFault {
            written: written as u64,
        }),
    }
}
