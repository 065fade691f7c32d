//! What a report shows of a text around a place.

ghost use Rattle.std.specs.Prelude.{◌≡◌, ◌-◌, ◌<◌, ◌≤◌, ◌^◌, ◌++◌, ℕ, IfOk, Some, encode_utf8_all, length, map, replicate, string_bytes};
ghost use Rattle.std.specs.Fmt.{decimal};
ghost use Rattle.fault_report.specs.Excerpts.{IsExcerpt, carets, rows_of};
ghost use Rattle.fault_report.specs.Shown.{back_of, blank_below, front_of};
ghost use Rattle.fault_report.specs.Tokens.{AreTokens, offset_of};
ghost use Rattle.fault_report.specs.Windows.{IsWindow};

use crate::line::{Line, Lines};
use crate::shown::{MOST, cut_back, cut_front, shown};
use crate::token_end::token_end;
use proto_base::Place;
use proto_tokens::Tokens;
use std::alloc::{AllocError, Global};
use std::fmt;

/// A line of a text with marks below it. It is written as two rows, the second without an end:
///
/// ```text
///   3 |   Missing x = 1;
///     |   ^^^^^^^
/// ```
#[derive(Drop)]
pub struct Excerpt {
    /// The number of the line, from 1.
    pub number: u32,
    /// The column of the place in bytes, from 1.
    pub column: u32,
    /// What is shown of the line.
    pub line: String,
    /// A blank for each digit of the number.
    pub margin: String,
    /// What stands below the line: blanks and tabs, and then the carets.
    pub marks: String,
}

impl fmt::Display for Excerpt {
    ghost output = { λ excerpt. Some (rows_of excerpt) };

    fn fmt<W: fmt::Write>(&self, f: &mut fmt::Formatter<W>) -> fmt::Result {
        let Excerpt {
            number,
            line,
            margin,
            marks,
            ..
        } = self;
        write!(f, "  {number} | {line}\n  {margin} | {marks}")
    }
}

/// The characters of a line that are shown, before the place and from it on.
#[derive(Drop)]
struct Window {
    front: Vec<char>,
    back: Vec<char>,
}

/// What is shown of a line of these characters.
fn window_of(alloc: Global, before: &[char], after: &[char]) -> Result<Window, AllocError>
    ensures front { IfOk result (λ window. window.front.items ≡ front_of before.now after.now) }
    ensures back { IfOk result (λ window. window.back.items ≡ back_of before.now after.now) }
{
    if before.len() <= MOST && after.len() <= MOST - before.len() {
        return Ok(Window {
            front: Vec::from_slice(alloc, before)?,
            back: Vec::from_slice(alloc, after)?,
        });
    }
    Ok(Window {
        front: cut_front(alloc, before)?,
        back: cut_back(alloc, after)?,
    })
}

/// A blank for each digit of a number.
fn margin_of(alloc: Global, number: u32) -> Result<String, AllocError>
    ensures { IfOk result (λ margin. string_bytes margin
        ≡ encode_utf8_all (map (λ _. 32) (decimal number))) }
{
    let digits = number.to_string(alloc)?;
    digits.bytes().map(|_| ' ').collect(alloc)
}

/// What stands below a character: a tab below a tab, else a blank.
fn blank_below(c: char) -> char
    ensures { result ≡ blank_below c }
{
    if c == '\t' { '\t' } else { ' ' }
}

/// The row below a line: blanks as far as the place, and carets.
fn marks_of(alloc: Global, front: &[char], carets: usize) -> Result<String, AllocError>
    ensures { IfOk result (λ marks. string_bytes marks
        ≡ encode_utf8_all (map blank_below front.now) ++ replicate carets 94) }
{
    let mut marks: String = front.iter().map(|c| blank_below(*c)).collect(alloc)?;
    for _drawn in 0..carets {
        marks.push('^')?;
    }
    Ok(marks)
}

/// How many carets a token has that ends there: one for each of its characters in this line, as far as they are shown, and one
/// where no token begins.
fn carets_of(
    alloc: Global,
    place: Place,
    end: Option<Place>,
    after: &[u8],
    shown_len: usize,
) -> Result<usize, AllocError>
    ensures { IfOk result (λ n. n ≡ carets place.offset (offset_of end) after.now shown_len) }
{
    let Some(end) = end else {
        return Ok(1);
    };
    let len = end.offset.saturating_sub(place.offset) as usize;
    let token = shown(alloc, &after[..len.min(after.len())])?;
    Ok(token.len().min(shown_len).max(1))
}

/// The characters of a line, as a text.
fn text_of(alloc: Global, front: &[char], back: &[char]) -> Result<String, AllocError>
    ensures { IfOk result (λ line. string_bytes line ≡ encode_utf8_all (front.now ++ back.now)) }
{
    front.iter().chain(back).copied().collect(alloc)
}

/// What is shown of a line around a place.
fn window_around(alloc: Global, line: Line) -> Result<Window, AllocError>
    ensures { IfOk result (IsWindow line.entry.before.now line.entry.after.now) }
{
    let before = shown(alloc, line.before)?;
    let after = shown(alloc, line.after)?;
    window_of(alloc, &before, &after)
}

/// The line of a text around a place, with carets below the token that begins there: as wide as it is in this line, and one where
/// no token begins or the text has a fault of its tokens. The tokens are those of the text (`tokens_in`).
///
/// A line of more than 200 characters is cut to the 100 before the place and the 100 from it on. Control characters are shown as
/// `?`, but tabs as they are, in both rows; bytes that are no UTF-8 as U+FFFD.
pub fn excerpt_at(
    alloc: Global,
    lines: &Lines<'_>,
    tokens: &Option<Tokens<'_>>,
    place: Place,
) -> Result<Excerpt, AllocError>
    requires within { place.offset ≤ length lines.now.text.now }
    requires below_last { place.offset < 2 ^ 32 - 1 }
    ensures { (limit : ℕ) → AreTokens limit lines.now.text.now tokens.now
        → IfOk result (IsExcerpt limit lines.now.text.now place.offset) }
{
    let line = lines.around(place);
    let window = window_around(alloc, line)?;
    let end = token_end(tokens, place);
    let carets = carets_of(alloc, place, end, line.after, window.back.len())?;
    Ok(Excerpt {
        number: line.number,
        column: line.column,
        line: text_of(alloc, &window.front, &window.back)?,
        margin: margin_of(alloc, line.number)?,
        marks: marks_of(alloc, &window.front, carets)?,
    })
}
