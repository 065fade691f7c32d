//! How a line is shown: a character a column, as if a terminal wrote each in one, and cut around the place where it is long.

ghost use Rattle.std.specs.Prelude.{◌≡◌, IfOk, length, map};
ghost use Rattle.fault_report.specs.Shown.{cut_back, cut_front, shown, shown_char};

use std::alloc::{AllocError, Global};

/// A line of more characters is cut.
pub(crate) const MOST: usize = 200;

/// How many characters stand on each side of the place where a line is cut there.
const SIDE: usize = 100;

/// What stands where a line is cut.
const DOTS: [char; 3] = ['.', '.', '.'];

/// A character as it is shown: a control character, but a tab, as `?`.
fn shown_char(c: char) -> char
    ensures { result ≡ shown_char c }
{
    if c.is_control() && c != '\t' { '?' } else { c }
}

/// The characters that are shown for bytes. Those that are no UTF-8 are U+FFFD.
pub(crate) fn shown(alloc: Global, bytes: &[u8]) -> Result<Vec<char>, AllocError>
    ensures { IfOk result (λ chars. chars.items ≡ shown bytes.now) }
{
    let text = String::from_utf8_lossy(alloc, bytes)?;
    text.chars().map(|c| shown_char(c)).collect(alloc)
}

/// The last of some characters, with dots in front where there were more.
pub(crate) fn cut_front(alloc: Global, chars: &[char]) -> Result<Vec<char>, AllocError>
    ensures { IfOk result (λ cut. cut.items ≡ cut_front chars.now) }
{
    if chars.len() <= SIDE {
        return Vec::from_slice(alloc, chars);
    }
    let mut cut = Vec::from_slice(alloc, &DOTS)?;
    cut.extend_from_slice(&chars[chars.len() - SIDE..])?;
    Ok(cut)
}

/// The first of some characters, with dots behind where there were more.
pub(crate) fn cut_back(alloc: Global, chars: &[char]) -> Result<Vec<char>, AllocError>
    ensures { IfOk result (λ cut. cut.items ≡ cut_back chars.now) }
{
    if chars.len() <= SIDE {
        return Vec::from_slice(alloc, chars);
    }
    let mut cut = Vec::from_slice(alloc, &chars[..SIDE])?;
    cut.extend_from_slice(&DOTS)?;
    Ok(cut)
}
