//! The lines of a text, and the one around a place.

ghost use Rattle.std.specs.Prelude.{◌≡◌, ◌==◌, ◌-◌, ◌<◌, ◌≤◌, ◌^◌, IfOk, length, not};
ghost use Rattle.std.specs.List.{position_or_len, suffix_len};
ghost use Rattle.fault_report.specs.Lines.{line_after, line_before, line_ends, to_line_end, without_cr};
ghost use Rattle.proto_base.specs.Lines.{column_at, line_at};

use proto_base::Place;
use std::alloc::{AllocError, Global};

/// A text and where its lines end, which is found once for all its places.
#[derive(Drop)]
pub struct Lines<'s> {
    pub text: &'s [u8],
    /// The offset of each LF.
    ends: Vec<usize>,
    ghost whole: { ends.items ≡ line_ends text.now },
}

/// The line of a text in which a place stands: its number and the place's column, both from 1, and its bytes before the place and
/// from the place on, without its LF or CR LF.
#[derive(Clone, Copy)]
pub struct Line<'s> {
    pub number: u32,
    pub column: u32,
    pub before: &'s [u8],
    pub after: &'s [u8],
}

/// The offset of each LF.
fn line_ends(alloc: Global, text: &[u8]) -> Result<Vec<usize>, AllocError>
    ensures { IfOk result (λ ends. ends.items ≡ line_ends text.now) }
{
    text.iter()
        .enumerate()
        .filter(|(_, byte)| **byte == b'\n')
        .map(|(at, _)| at)
        .collect(alloc)
}

/// How many bytes stand before the first LF.
fn first_line_len(text: &[u8]) -> usize
    ensures len { result ≡ position_or_len (λ b. b == 10) text.now }
    ensures within { result ≤ length text.now }
{
    text.iter().take_while(|byte| **byte != b'\n').count()
}

/// How many bytes stand behind the last LF.
fn last_line_len(text: &[u8]) -> usize
    ensures len { result ≡ suffix_len (λ b. not (b == 10)) text.now }
    ensures within { result ≤ length text.now }
{
    text.iter().rev().take_while(|byte| **byte != b'\n').count()
}

/// The bytes before the first LF, all where there is none.
fn to_line_end(text: &[u8]) -> &[u8]
    ensures { result.now ≡ to_line_end text.now }
{
    &text[..first_line_len(text)]
}

/// A line without the CR at its end, where it has one.
fn without_cr(line: &[u8]) -> &[u8]
    ensures { result.now ≡ without_cr line.now }
{
    if line.ends_with(b"\r") {
        &line[..line.len() - 1]
    } else {
        line
    }
}

impl<'s> Lines<'s> {
    /// The lines of a text.
    pub fn new(alloc: Global, text: &'s [u8]) -> Result<Lines<'s>, AllocError>
        ensures { IfOk result (λ lines. lines.text.now ≡ text.now) }
    {
        let ends = line_ends(alloc, text)?;
        Ok(Lines { text, ends })
    }

    /// The number of the line in which a place stands.
    fn number_at(&self, place: Place) -> u32
        requires within { place.offset ≤ length self.now.text.now }
        requires below_last { place.offset < 2 ^ 32 - 1 }
        ensures { result ≡ line_at self.now.text.now place.offset }
    {
        let place = place.offset as usize;
        let before = self.ends.partition_point(|end| *end < place);
        before as u32 + 1
    }

    /// The line around a place.
    pub fn around(&self, place: Place) -> Line<'s>
        requires within { place.offset ≤ length self.now.text.now }
        requires below_last { place.offset < 2 ^ 32 - 1 }
        ensures number { result.number ≡ line_at self.now.text.now place.offset }
        ensures column { result.column ≡ column_at self.now.text.now place.offset }
        ensures before { result.before.now ≡ line_before self.now.text.now place.offset }
        ensures after { result.after.now ≡ line_after self.now.text.now place.offset }
    {
        let (front, back) = self.text.split_at(place.offset as usize);
        let column = last_line_len(front);
        Line {
            number: self.number_at(place),
            column: column as u32 + 1,
            before: &front[front.len() - column..],
            after: without_cr(to_line_end(back)),
        }
    }
}
