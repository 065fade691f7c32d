//! Places of a source, and the lines and columns that users see.

ghost use Rattle.std.specs.Prelude.{◌≡◌, ◌==◌, ◌<◌, ◌≤◌, ◌-◌, ◌^◌, not, Some, length};
ghost use Rattle.std.specs.Fmt.{decimal};
ghost use Rattle.std.specs.List.{suffix_len};
ghost use Rattle.proto_base.specs.Lines.{column_at, line_at};

use std::fmt;

/// A byte of a source, counted in bytes from its first; a byte order mark counts.
#[derive(Clone, Copy, Debug, PartialEq, Eq, PartialOrd, Ord)]
pub struct Place {
    /// The bytes before it.
    pub offset: u32,
}

impl fmt::Display for Place {
    ghost output = { λ place. Some (decimal place.offset) };

    fn fmt<W: fmt::Write>(&self, f: &mut fmt::Formatter<W>) -> fmt::Result {
        fmt::Display::fmt(&self.offset, f)
    }
}

/// The bytes of a source from `start` up to `end`, without the one at `end`.
#[derive(Clone, Copy)]
pub struct Span {
    pub start: Place,
    pub end: Place,
}

/// How many bytes stand after the last LF.
fn last_line_len(bytes: &[u8]) -> usize
    ensures len { result ≡ suffix_len (λ b. not (b == 10)) bytes.now }
    ensures within { result ≤ length bytes.now }
{
    bytes
        .iter()
        .rev()
        .take_while(|byte| **byte != b'\n')
        .count()
}

/// The line and the column of a place, both from 1: a line ends behind its LF, and a column counts bytes.
pub fn line_column(text: &[u8], place: Place) -> (u32, u32)
    requires within { place.offset ≤ length text.now }
    requires below_last { place.offset < 2 ^ 32 - 1 }
    ensures line { result.0 ≡ line_at text.now place.offset }
    ensures column { result.1 ≡ column_at text.now place.offset }
{
    let before = &text[..place.offset as usize];
    let lines = before.iter().filter(|byte| **byte == b'\n').count();
    let columns = last_line_len(before);
    (lines as u32 + 1, columns as u32 + 1)
}
