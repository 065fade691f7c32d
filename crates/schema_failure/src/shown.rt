//! Names of files as lines have them.

ghost use Rattle.std.specs.Prelude.{Some};
ghost use Rattle.std.specs.Fmt.{WritesOnOk};
ghost use Rattle.schema_failure.specs.Lines.{shown_char, shown_name};

use std::fmt;

/// The name of a file, in which each control character of ASCII is written by its number, as `\u{a}`: so a line with it stays one.
#[derive(Clone, Copy)]
pub struct Shown<'a>(pub &'a str);

fn write_char<W: fmt::Write>(c: char, f: &mut fmt::Formatter<W>) -> fmt::Result
    ensures { WritesOnOk W.write_str_gives f.old result (shown_char c) f.new }
{
    if c.is_ascii_control() {
        write!(f, "\\u{{{:x}}}", u32::from(c))
    } else {
        write!(f, "{c}")
    }
}

fn write_shown<W: fmt::Write>(name: &str, f: &mut fmt::Formatter<W>) -> fmt::Result
    ensures { WritesOnOk W.write_str_gives f.old result (shown_name name.now) f.new }
{
    for c in name.chars() {
        write_char(c, f)?;
    }
    Ok(())
}

impl fmt::Display for Shown<'_> {
    ghost output = { λ shown. Some (shown_name shown.0.now) };

    fn fmt<W: fmt::Write>(&self, f: &mut fmt::Formatter<W>) -> fmt::Result {
        write_shown(self.0, f)
    }
}
