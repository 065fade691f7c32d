//! A part of the files whose occurrences are collected.

ghost use Rattle.std.specs.Prelude.{◌+◌, ◌<◌, ◌^◌, length};

use proto_desc::file::FileDesc;
use proto_links::FileId;

/// Files that stand side by side, and the position of the first.
#[derive(Drop)]
pub(crate) struct Part<'f, 's> {
    pub(crate) first: FileId,
    pub(crate) files: &'f [FileDesc<'s>],
    ghost within: { first + length files.now < 2 ^ 64 },
}
