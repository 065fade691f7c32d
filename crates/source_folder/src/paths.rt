//! Paths below a root, joined by `/`.

ghost use Rattle.std.specs.Bool.{OnFalse, OnTrue};
ghost use Rattle.std.specs.Prelude.{◌≡◌, IfOk, IsSomeAnd, None, Ok, string_bytes};
ghost use Rattle.source_folder.specs.Paths.{ends_in_proto, is_below, is_entry, joined_path};

use std::alloc::{AllocError, Global};

/// A path and what is named below it. An empty one adds nothing.
pub(crate) fn join_path(alloc: Global, path: &str, name: &str) -> Result<String, AllocError>
    ensures { IfOk result (λ joined. string_bytes joined ≡ joined_path path.now name.now) }
{
    let mut joined = String::from_str(alloc, path)?;
    if !path.is_empty() && !name.is_empty() {
        joined.push('/')?;
    }
    joined.push_str(name)?;
    Ok(joined)
}

/// Whether a path is that of a proto3 source.
pub(crate) fn is_proto(path: &str) -> bool
    ensures { result ≡ ends_in_proto path.now }
{
    path.as_bytes().ends_with(b".proto")
}

/// Whether a part of a path names what is in a folder, and not the folder itself or the one around it.
fn is_entry(part: &str) -> bool
    ensures { result ≡ is_entry part.now }
{
    !part.is_empty() && part != "." && part != ".."
}

/// Whether a name can be a path below a folder: `/` parts it into what is neither empty nor `.` nor `..`.
pub fn is_below(name: &str) -> bool
    ensures { result ≡ is_below name.now }
{
    name.split('/').all(|part| is_entry(part))
}

/// The path of a name below a folder, if it can be one.
pub(crate) fn path_below(
    alloc: Global,
    folder: &str,
    name: &str,
) -> Result<Option<String>, AllocError>
    ensures below { OnTrue (is_below name.now) (IfOk result (λ found. IsSomeAnd found
        (λ path. string_bytes path ≡ joined_path folder.now name.now))) }
    ensures beside { OnFalse (is_below name.now) (result ≡ Ok None) }
{
    if !is_below(name) {
        return Ok(None);
    }
    Ok(Some(join_path(alloc, folder, name)?))
}
