//! The set of descriptors: how long it is, and its bytes.

ghost use Rattle.std.specs.Prelude.{◌≡◌, ℕ, ◌<◌, ◌≤◌, ◌^◌, IfOk, MatchOption, length, Contains};
ghost use Rattle.proto_compilation.specs.Compilation.{set_of};

use crate::table::FileTable;
use proto_links::Links;
use std::alloc::{AllocError, Global};
use wire_format::{FieldValue, field_len, put_field};

/// The number of the field `file` of a `FileDescriptorSet`.
pub const FILE_FIELD: u32 = 1;

/// How many bytes the set has, where these are at most so many.
pub(crate) fn set_len(files: &FileTable, links: &Links, most: u64) -> Option<u64>
    requires most { most ≤ 2 ^ 32 }
    requires inside { (a : ℕ) → Contains links.now.set_order a → a < length files.now }
    ensures { MatchOption result (most < length (set_of files.now links.now))
        (λ len. (len ≡ length (set_of files.now links.now)) × (len ≤ most)) }
{
    let mut len = 0;
    for file in links.set_order() {
        len += field_len(FILE_FIELD, &FieldValue::Delimited(files.bytes(*file)));
        if len > most {
            return None;
        }
    }
    Some(len)
}

/// The bytes of the set (`descriptor.proto`, `FileDescriptorSet`), in set order, in room for so many.
pub(crate) fn set_bytes(
    alloc: Global,
    files: &FileTable,
    links: &Links,
    room: usize,
) -> Result<Vec<u8>, AllocError>
    requires { (a : ℕ) → Contains links.now.set_order a → a < length files.now }
    ensures { IfOk result (λ bytes. bytes.items ≡ set_of files.now links.now) }
{
    let mut out = Vec::with_capacity(alloc, room)?;
    for file in links.set_order() {
        put_field(
            &mut out,
            FILE_FIELD,
            &FieldValue::Delimited(files.bytes(*file)),
        )?;
    }
    Ok(out)
}
