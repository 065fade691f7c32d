//! Base 128 varints: seven bits of the number a byte, the low ones first, and 128 added to each byte but the last.

ghost use Rattle.std.specs.Prelude.{◌≡◌, ℕ, ◌+◌, ◌++◌, ◌<◌, ◌≤◌, ◌^◌, OnOk, OnErr, List, length, vec_capacity, vec_len};
ghost use Rattle.wire_format.specs.Varint.{Spells, varint_bytes};

use std::alloc::AllocError;

/// Appends the shortest varint of a number. Where there is no memory, the prefix of one may be appended.
pub(crate) fn push_varint(out: &mut Vec<u8>, value: u64) -> Result<(), AllocError>
    ensures appended { OnOk result (out.new.items ≡ out.old.items ++ varint_bytes value) }
    ensures prefix { OnErr result ((prefix : List ℕ) × (out.new.items ≡ out.old.items ++ prefix)) }
    ensures capacity { vec_capacity out.old ≤ vec_capacity out.new }
    ensures full { OnErr result
        (vec_capacity out.old < vec_len out.old + length (varint_bytes value)) }
{
    let mut rest = value;
    while rest >= 128 {
        out.push((rest % 128) as u8 + 128)?;
        rest /= 128;
    }
    out.push(rest as u8)?;
    Ok(())
}

/// Appends the shortest varint of a number (encoding guide, "Base 128 Varints").
///
/// Where there is no memory, `out` stays as it was. Where its capacity suffices, none is needed. It never loses room.
pub fn put_varint(out: &mut Vec<u8>, value: u64) -> Result<(), AllocError>
    ensures appended { OnOk result (out.new.items ≡ out.old.items ++ varint_bytes value) }
    ensures unchanged { OnErr result (out.new.items ≡ out.old.items) }
    ensures capacity { vec_capacity out.old ≤ vec_capacity out.new }
    ensures full { OnErr result
        (vec_capacity out.old < vec_len out.old + length (varint_bytes value)) }
{
    let start = out.len();
    let pushed = push_varint(out, value);
    if pushed.is_err() {
        out.truncate(start);
    }
    pushed
}

/// How many bytes `put_varint` appends for a number: 1 to 10.
pub fn varint_len(value: u64) -> usize
    ensures len { result ≡ length (varint_bytes value) }
    ensures most { result ≤ 10 }
{
    let mut rest = value;
    let mut len = 1;
    while rest > 127 {
        len += 1;
        rest /= 128;
    }
    len
}

/// What `put_varint` writes spells the number, in at most ten bytes, and nothing shorter spells it.
pub fn varint_is_shortest()
    ensures spelled { (n : ℕ) → n < 2 ^ 64 → Spells (varint_bytes n) n }
    ensures short { (n : ℕ) → n < 2 ^ 64 → length (varint_bytes n) ≤ 10 }
    ensures shortest { (n : ℕ) (bytes : List ℕ) → n < 2 ^ 64 → Spells bytes n
        → length (varint_bytes n) ≤ length bytes }
{}
