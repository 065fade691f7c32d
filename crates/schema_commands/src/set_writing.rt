//! The set of a compilation, written file by file: it never stands in memory as a whole. To a writer small files go together,
//! to a file of `--output` each head and each descriptor by itself.

ghost use Rattle.std.specs.Prelude.{◌≡◌, ◌+◌, ◌-◌, ◌<◌, ◌≤◌, ◌^◌, ◌++◌, [], IfOk, OnOk, length, vec_capacity};
ghost use Rattle.proto_compilation.specs.Compilation.{set_of};
ghost use Rattle.schema_commands.specs.Gathered.{IsGathered};
ghost use Rattle.schema_commands.specs.Runs.{IsOutput};
ghost use Rattle.wire_format.specs.Field.{bytes_field};
ghost use Rattle.wire_format.specs.Varint.{varint_bytes};

use counted_io::{CountedWrite, write_bytes};
use proto_compilation::{Compiled, FILE_FIELD};
use schema_failure::Failure;
use std::alloc::{AllocError, Global};
use std::io::{self, Write};
use wire_format::put_varint;

/// The tag of the field `file` of a `FileDescriptorSet`, with wire type 2.
const TAG: u64 = FILE_FIELD as u64 * 8 + 2;

/// The most bytes of a head: a tag of one, and a length of at most ten.
const MOST_HEAD: usize = 11;

/// How many bytes are put together before they are written.
const CHUNK: usize = 65_536;

/// Writes these bytes.
pub(crate) fn write_part<O: CountedWrite>(bytes: &[u8], writer: &mut O) -> Result<(), Failure>
    requires { (O.writes writer.old).failures < 2 ^ 64 - 1 }
    ensures { IsOutput (O.writes writer.old) (O.writes writer.new) bytes.now result }
{
    Ok(write_bytes(writer, bytes)?)
}

/// Bytes of a set that are to be written together. It has its room from the first, so that no memory is asked for between
/// two writes.
#[derive(Drop)]
pub(crate) struct Chunk {
    bytes: Vec<u8>,
    ghost room: { 65_536 ≤ vec_capacity bytes },
}

impl Chunk {
    pub(crate) fn new(alloc: Global) -> Result<Chunk, AllocError>
        ensures { IfOk result (λ chunk. chunk.bytes.items ≡ []) }
    {
        let bytes = Vec::with_capacity(alloc, CHUNK)?;
        Ok(Chunk { bytes })
    }

    /// Begins anew.
    fn clear(&mut self)
        ensures { self.new.bytes.items ≡ [] }
    {
        self.bytes.clear();
    }

    /// Writes what is put together, and begins anew.
    fn write_out<O: CountedWrite>(&mut self, writer: &mut O) -> Result<(), Failure>
        requires { (O.writes writer.old).failures < 2 ^ 64 - 1 }
        ensures written { IsOutput (O.writes writer.old) (O.writes writer.new) self.old.bytes.items
            result }
        ensures anew { OnOk result (self.new.bytes.items ≡ []) }
    {
        write_part(&self.bytes, writer)?;
        self.clear();
        Ok(())
    }

    /// Puts the head of a file of so many bytes behind the others: what stands before its bytes in a set.
    fn put_head(&mut self, len: usize)
        requires { length self.old.bytes.items + 11 ≤ 65_536 }
        ensures { self.new.bytes.items ≡ self.old.bytes.items ++ (varint_bytes 10 ++ varint_bytes len) }
    {
        let _ = put_varint(&mut self.bytes, TAG);
        let _ = put_varint(&mut self.bytes, len as u64);
    }

    /// Puts bytes behind the others.
    fn put_bytes(&mut self, bytes: &[u8])
        requires { length self.old.bytes.items + length bytes.now ≤ 65_536 }
        ensures { self.new.bytes.items ≡ self.old.bytes.items ++ bytes.now }
    {
        let _ = self.bytes.extend_from_slice(bytes);
    }

    /// Writes what is put together where a file of so many bytes, with its head, has no room behind it.
    fn make_room<O: CountedWrite>(&mut self, len: usize, writer: &mut O) -> Result<(), Failure>
        requires { (O.writes writer.old).failures < 2 ^ 64 - 1 }
        ensures gathered { IsGathered (O.writes writer.old) (O.writes writer.new)
            self.old.bytes.items self.new.bytes.items [] result }
        ensures head { OnOk result (length self.new.bytes.items + 11 ≤ 65_536) }
        ensures room { OnOk result (len ≤ 65_525
            → length self.new.bytes.items + 11 + len ≤ 65_536) }
    {
        if len > CHUNK - MOST_HEAD || self.bytes.len() > CHUNK - MOST_HEAD - len {
            self.write_out(writer)?;
        }
        Ok(())
    }

    /// Puts a file as a field of a set behind the others, and writes what there is no room for.
    fn put_file<O: CountedWrite>(&mut self, bytes: &[u8], writer: &mut O) -> Result<(), Failure>
        requires { (O.writes writer.old).failures < 2 ^ 64 - 1 }
        ensures { IsGathered (O.writes writer.old) (O.writes writer.new) self.old.bytes.items
            self.new.bytes.items (bytes_field 1 bytes.now) result }
    {
        self.make_room(bytes.len(), writer)?;
        self.put_head(bytes.len());
        if bytes.len() > CHUNK - MOST_HEAD {
            self.write_out(writer)?;
            return write_part(bytes, writer);
        }
        self.put_bytes(bytes);
        Ok(())
    }
}

/// The set of a compilation, which is to be written.
#[derive(Drop)]
pub(crate) struct SetWriter<'a> {
    pub(crate) compiled: &'a Compiled,
    chunk: Chunk,
}

impl SetWriter<'_> {
    pub(crate) fn new<'a>(compiled: &'a Compiled, chunk: Chunk) -> SetWriter<'a>
        ensures { result.compiled ≡ compiled.entry }
    {
        SetWriter { compiled, chunk }
    }

    /// Writes the set to a writer, and flushes it.
    pub(crate) fn write<O: CountedWrite>(&mut self, writer: &mut O) -> Result<(), Failure>
        requires { (O.writes writer.old).failures < 2 ^ 64 - 1 }
        ensures { IsOutput (O.writes writer.old) (O.writes writer.new)
            (set_of self.old.compiled.now.files self.old.compiled.now.links) result }
    {
        let compiled = self.compiled;
        compiled.is_sound();
        self.chunk.clear();
        for file in compiled.links().set_order() {
            self.chunk.put_file(compiled.bytes_at(*file), writer)?;
        }
        self.chunk.write_out(writer)
    }

    /// Writes the set to a file or a device, and tells how many bytes it has.
    pub(crate) fn put_files<W: Write>(&mut self, file: &mut W) -> io::Result<u64> {
        let compiled = self.compiled;
        compiled.is_sound();
        let mut len = 0u64;
        for id in compiled.links().set_order() {
            let bytes = compiled.bytes_at(*id);
            self.chunk.clear();
            self.chunk.put_head(bytes.len());
            file.write_all(&self.chunk.bytes)?;
            file.write_all(bytes)?;
            len = len.saturating_add(self.chunk.bytes.len() as u64 + bytes.len() as u64);
        }
        Ok(len)
    }
}
