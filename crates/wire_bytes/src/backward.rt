//! A buffer that is written from its end: each piece goes before what is written already, so the length of a field's
//! value is known when its head is due, and no value is built apart from the whole.

ghost use Rattle.std.specs.Prelude.{◌≡◌, ◌≤◌, ◌++◌, ◌∷◌, [], IfOk, OnErr, OnOk, drop, length, vec_len};
ghost use Rattle.wire_format.specs.Varint.{varint_bytes};

mod field;

pub(crate) use field::Payload;
use std::alloc::{AllocError, Global};
use std::marker::Model;

/// Bytes, of which new ones go to the front. Contracts see them as the list of what is written.
#[derive(Drop)]
pub(crate) struct Backward {
    /// Free room, and behind it what is written.
    bytes: Vec<u8>,
    /// How long the free room is.
    room: usize,
}

impl Model for Backward {
    ghost use Rattle.std.specs.Prelude.{◌≤◌, List, ℕ, drop, vec_len};

    ghost Value = { List ℕ };

    ghost view = { λ out. drop out.room out.bytes.items };

    ghost invariant = { λ out. out.room ≤ vec_len out.bytes };
}

/// Makes the free room of a buffer at least this long, by a buffer of twice the length or more, and gives its length.
#[cold]
#[inline(never)]
fn widen(bytes: &mut Vec<u8>, room: usize, needed: usize) -> Result<usize, AllocError>
    requires { room ≤ vec_len bytes.old }
    ensures enough { IfOk result (λ wider. needed ≤ wider) }
    ensures within { IfOk result (λ wider. wider ≤ vec_len bytes.new) }
    ensures written { IfOk result (λ wider. drop wider bytes.new.items
        ≡ drop room bytes.old.items) }
    ensures err { OnErr result (vec_len bytes.new ≡ vec_len bytes.old) }
{
    let len = bytes.len();
    let more = len.max(needed);
    let longer = len.checked_add(more).ok_or(AllocError)?;
    let mut buffer = Vec::with_capacity(*bytes.allocator(), longer)?;
    buffer.resize(room + more, 0)?;
    buffer.extend_from_slice(&bytes[room..])?;
    *bytes = buffer;
    Ok(room + more)
}

impl Backward {
    /// Nothing written, with room for this many bytes.
    pub(crate) fn with_room(alloc: Global, room: usize) -> Result<Backward, AllocError>
        ensures { IfOk result (λ out. out ≡ []) }
    {
        Ok(Backward {
            bytes: vec![in alloc; 0; room]?,
            room,
        })
    }

    /// What the buffer has its memory from.
    pub(crate) fn allocator(&self) -> Global {
        *self.bytes.allocator()
    }

    /// How many bytes are written.
    pub(crate) fn len(&self) -> usize
        ensures { result ≡ length self.now }
    {
        self.bytes.len() - self.room
    }

    #[inline]
    pub(crate) fn prepend_byte(&mut self, byte: u8) -> Result<(), AllocError>
        ensures { OnOk result (self.new ≡ byte ∷ self.old) }
    {
        if self.room == 0 {
            self.room = widen(&mut self.bytes, self.room, 1)?;
        }
        self.room -= 1;
        self.bytes[self.room] = byte;
        Ok(())
    }

    #[inline]
    pub(crate) fn prepend_bytes(&mut self, bytes: &[u8]) -> Result<(), AllocError>
        ensures { OnOk result (self.new ≡ bytes.now ++ self.old) }
    {
        if self.room < bytes.len() {
            self.room = widen(&mut self.bytes, self.room, bytes.len())?;
        }
        let end = self.room;
        self.room -= bytes.len();
        self.bytes[self.room..end].copy_from_slice(bytes);
        Ok(())
    }

    /// Writes the groups of a varint, from the last to the first.
    #[inline(never)]
    fn prepend_groups(&mut self, value: u64) -> Result<(), AllocError>
        ensures { OnOk result (self.new ≡ varint_bytes value ++ self.old) }
    {
        if value < 128 {
            return self.prepend_byte(value as u8);
        }
        self.prepend_groups(value / 128)?;
        self.prepend_byte((value % 128) as u8 + 128)
    }

    /// Writes the shortest varint of a number (encoding guide, "Base 128 Varints").
    #[inline]
    pub(crate) fn prepend_varint(&mut self, value: u64) -> Result<(), AllocError>
        ensures { OnOk result (self.new ≡ varint_bytes value ++ self.old) }
    {
        // Most numbers are one byte, which needs no call.
        if value < 128 {
            self.prepend_byte(value as u8)
        } else {
            self.prepend_groups(value)
        }
    }

    /// What is written, in a vector of no more room than that. The buffer is let go.
    pub(crate) fn into_vec(self) -> Result<Vec<u8>, AllocError>
        ensures { IfOk result (λ bytes. bytes.items ≡ self) }
    {
        Vec::from_slice(self.allocator(), &self.bytes[self.room..])
    }
}
