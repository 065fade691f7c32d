//! What `explain` prints.

ghost use Rattle.std.specs.Prelude.{◌≡◌, ◌++◌, IfOk, OnOk, flat_map, string_bytes};
ghost use Rattle.schema_explanation.specs.Page.{line_of, page_of};
ghost use Rattle.schema_explanation.specs.Table.{topics};

use crate::topic::{Topic, topics};
use std::alloc::{AllocError, Global};
use std::fmt::Write;

/// Adds the line of a topic in the list of all: its name, and what it means.
fn put_line(lines: &mut String, topic: Topic) -> Result<(), AllocError>
    ensures { OnOk result (string_bytes lines.new ≡ string_bytes lines.old ++ line_of topic) }
{
    writeln!(lines, "{:<20}{}", topic.name(), topic.meaning())
}

/// A line for each topic.
fn list(alloc: Global) -> Result<String, AllocError>
    ensures { IfOk result (λ lines. string_bytes lines ≡ flat_map line_of topics) }
{
    let mut lines = String::new(alloc);
    for topic in topics() {
        put_line(&mut lines, *topic)?;
    }
    Ok(lines)
}

/// What `explain` prints: all that is said of a topic below its name, or a line for each topic.
pub fn explanation(alloc: Global, topic: Option<Topic>) -> Result<String, AllocError>
    ensures { IfOk result (λ text. string_bytes text ≡ page_of topic) }
{
    match topic {
        Some(topic) => format!(in alloc; "{}\n\n{}\n", topic.name(), topic.text()),
        None => list(alloc),
    }
}
