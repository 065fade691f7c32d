//! Texts as other programs read them.

ghost use Rattle.std.specs.Prelude.{Some};
ghost use Rattle.std.specs.Fmt.{WritesOnOk};
ghost use Rattle.schema_check.specs.Escapes.{json_char, json_text, message_char, message_text, property_char, property_text};

use std::fmt;

/// A text between the quotes of a JSON string (RFC 8259, section 7).
#[derive(Clone, Copy)]
pub(crate) struct JsonText<'a>(pub(crate) &'a str);

fn write_json_char<W: fmt::Write>(c: char, f: &mut fmt::Formatter<W>) -> fmt::Result
    ensures { WritesOnOk W.write_str_gives f.old result (json_char c) f.new }
{
    let code = u32::from(c);
    if code == 34 || code == 92 {
        write!(f, "\\{c}")
    } else if code < 32 {
        let high = code / 16;
        let low = code % 16;
        write!(f, "\\u00{high:x}{low:x}")
    } else {
        write!(f, "{c}")
    }
}

fn write_json<W: fmt::Write>(text: &str, f: &mut fmt::Formatter<W>) -> fmt::Result
    ensures { WritesOnOk W.write_str_gives f.old result (json_text text.now) f.new }
{
    for c in text.chars() {
        write_json_char(c, f)?;
    }
    Ok(())
}

impl fmt::Display for JsonText<'_> {
    ghost output = { λ text. Some (json_text text.0.now) };

    fn fmt<W: fmt::Write>(&self, f: &mut fmt::Formatter<W>) -> fmt::Result {
        write_json(self.0, f)
    }
}

/// The message of a workflow command, of one line.
#[derive(Clone, Copy)]
pub(crate) struct CommandMessage<'a>(pub(crate) &'a str);

fn write_message_char<W: fmt::Write>(c: char, f: &mut fmt::Formatter<W>) -> fmt::Result
    ensures { WritesOnOk W.write_str_gives f.old result (message_char c) f.new }
{
    match u32::from(c) {
        37 => write!(f, "%25"),
        13 => write!(f, "%0D"),
        10 => write!(f, "%0A"),
        _ => write!(f, "{c}"),
    }
}

fn write_message<W: fmt::Write>(text: &str, f: &mut fmt::Formatter<W>) -> fmt::Result
    ensures { WritesOnOk W.write_str_gives f.old result (message_text text.now) f.new }
{
    for c in text.chars() {
        write_message_char(c, f)?;
    }
    Ok(())
}

impl fmt::Display for CommandMessage<'_> {
    ghost output = { λ text. Some (message_text text.0.now) };

    fn fmt<W: fmt::Write>(&self, f: &mut fmt::Formatter<W>) -> fmt::Result {
        write_message(self.0, f)
    }
}

/// A property of a workflow command, as the path of a file.
#[derive(Clone, Copy)]
pub(crate) struct CommandProperty<'a>(pub(crate) &'a str);

fn write_property_char<W: fmt::Write>(c: char, f: &mut fmt::Formatter<W>) -> fmt::Result
    ensures { WritesOnOk W.write_str_gives f.old result (property_char c) f.new }
{
    match u32::from(c) {
        58 => write!(f, "%3A"),
        44 => write!(f, "%2C"),
        _ => write_message_char(c, f),
    }
}

fn write_property<W: fmt::Write>(text: &str, f: &mut fmt::Formatter<W>) -> fmt::Result
    ensures { WritesOnOk W.write_str_gives f.old result (property_text text.now) f.new }
{
    for c in text.chars() {
        write_property_char(c, f)?;
    }
    Ok(())
}

impl fmt::Display for CommandProperty<'_> {
    ghost output = { λ text. Some (property_text text.0.now) };

    fn fmt<W: fmt::Write>(&self, f: &mut fmt::Formatter<W>) -> fmt::Result {
        write_property(self.0, f)
    }
}
