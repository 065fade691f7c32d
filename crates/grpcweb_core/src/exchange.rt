//! Answering over a reader and a writer: the bytes of a request body come from one, and those of the response go to the other.

ghost use Rattle.std.specs.Prelude.{◌-◌, ◌<◌, ◌^◌};
ghost use Rattle.counted_io.specs.Runs.{IsFewMore};
ghost use Rattle.grpcweb_core.specs.Exchange.{IsExchange, room_of};

use counted_io::{CountedRead, CountedWrite, IoFault, read_bytes, write_bytes};
use proto_base::Limit;
use proto_compilation::Compiled;
use reflect_core::{Mode, answer_body};
use share_work::{Gate, Plan};
use std::alloc::AllocGlobal;
use std::thread::Threads;

/// Answers what a reader gives over a writer: reads a request body to its end, or to one byte over the limit, and writes the
/// response (`answer_body`).
///
/// The first call of the reader or the writer that fails ends it. Nothing was written at `ReadFault` and `NoMemory`; at
/// `WriteFault` the response was written up to a count of bytes.
pub fn answer_io<R, G, I, O>(
    rt: &R,
    compiled: &Compiled,
    plan: Plan,
    gate: &G,
    mode: Mode,
    reader: &mut I,
    writer: &mut O,
) -> Result<(), IoFault>
where
    R: Threads + AllocGlobal + Sync,
    G: Gate + Sync,
    I: CountedRead,
    O: CountedWrite,
    requires reader_counts { (I.reads reader.old).failures < 2 ^ 64 - 1 }
    requires writer_counts { (O.writes writer.old).failures < 2 ^ 64 - 1 }
    ensures exchange { IsExchange mode compiled.now (I.reads reader.old) (I.reads reader.new)
        (O.writes writer.old) (O.writes writer.new) result }

    // No more reads than bytes that it may read.
    ensures reads { IsFewMore (room_of compiled.now) (I.reads reader.old) (I.reads reader.new) }
{
    let most = compiled.limits().read_bound(Limit::BodyBytes) as usize;
    let body = read_bytes(rt.alloc(), reader, most)?;
    let response = answer_body(rt, compiled, plan, gate, mode, &body)?;
    write_bytes(writer, &response)
}
