//! What the report says that a fault is about.

use crate::blocks::slash_behind;
use crate::escaped::JsonText;
use crate::pages::{Named, OpenFile};
use fault_report::{Form, Line, Lines};
use fault_words::{Other, Words};
use proto_base::{Fault, Place};
use schema_explanation::Topic;
use schema_failure::Shown;
use schema_sources::Places;
use std::alloc::{AllocError, Global};
use std::collections::HashMap;

/// What a fault is about, as each form has it.
#[derive(Drop)]
pub(crate) struct Message {
    /// In one line, without its end: what is known of this fault, or else of its kind.
    pub(crate) line: String,
    /// For people, as a row below the fault's own line, with its end; nothing where no more than its kind is known.
    pub(crate) row: String,
    /// For JSON, the further members of an object, each behind a comma.
    pub(crate) members: String,
}

/// The first sentence of a text.
fn first_sentence(text: &str) -> &str {
    match text.split_once(". ") {
        Some((first, _)) => first,
        None => text.strip_suffix('.').unwrap_or(text),
    }
}

/// The line around a place, if it lies in the text.
fn line_in<'s>(lines: &Lines<'s>, place: Place) -> Option<Line<'s>> {
    if place.offset as usize <= lines.text.len() && place.offset < u32::MAX - 1 {
        Some(lines.around(place))
    } else {
        None
    }
}

/// The column of a place in characters, from 1.
fn character_at(
    alloc: Global,
    file: &OpenFile<'_, '_, '_>,
    place: Place,
) -> Result<usize, AllocError> {
    let Some(page) = &file.page else {
        return Ok(1);
    };
    let Some(line) = line_in(&page.lines, place) else {
        return Ok(1);
    };
    let before = String::from_utf8_lossy(alloc, line.before)?;
    Ok(before.chars().count().saturating_add(1))
}

/// The lines of files by their names, as far as faults of other files are about them.
pub(crate) type OtherLines<'s> = HashMap<&'s str, Lines<'s>>;

/// The line around a place in the file of a name, if a source has it.
fn line_elsewhere<'s>(
    alloc: Global,
    named: &Named<'s>,
    others: &mut OtherLines<'s>,
    other: Other<'_>,
) -> Result<Option<Line<'s>>, AllocError> {
    let Some(source) = named.get(other.file) else {
        return Ok(None);
    };
    if !others.contains_key(source.name) {
        others.insert(source.name, Lines::new(alloc, source.text)?)?;
    }
    match others.get(source.name) {
        Some(lines) => Ok(line_in(lines, other.place)),
        None => Ok(None),
    }
}

/// Where something else stands.
#[derive(Clone, Copy)]
struct Position<'p, 'n> {
    folder: &'p str,
    file: &'n str,
    number: u32,
    column: u32,
    place: Place,
}

/// Where something else stands that a fault of this file is about, if that is known.
fn position_of<'p, 'n, 's>(
    alloc: Global,
    places: &Places<'p>,
    named: &Named<'s>,
    others: &mut OtherLines<'s>,
    file: &OpenFile<'_, '_, 's>,
    other: Other<'n>,
) -> Result<Option<Position<'p, 'n>>, AllocError> {
    let line = match &file.page {
        Some(page) if file.name == other.file => line_in(&page.lines, other.place),
        _ => line_elsewhere(alloc, named, others, other)?,
    };
    let Some(Line { number, column, .. }) = line else {
        return Ok(None);
    };
    Ok(Some(Position {
        folder: places.folder_of(other.file),
        file: other.file,
        number,
        column,
        place: other.place,
    }))
}

/// A position as a path with its line and its column.
fn position_text(alloc: Global, position: Position<'_, '_>) -> Result<String, AllocError> {
    let Position {
        folder,
        file,
        number,
        column,
        ..
    } = position;
    let slash = slash_behind(folder);
    let root = Shown(folder);
    let file = Shown(file);
    format!(in alloc; ": {root}{slash}{file}:{number}:{column}")
}

/// A position as a JSON object.
fn position_object(alloc: Global, position: Position<'_, '_>) -> Result<String, AllocError> {
    let Position {
        file,
        number,
        column,
        place,
        ..
    } = position;
    let file = JsonText(file);
    format!(in alloc;
        "{{\"file\":\"{file}\",\"line\":{number},\"column\":{column},\"place\":{place}}}"
    )
}

/// The further members of a fault's JSON object, with the position of something else, if there is one.
fn members_of(
    alloc: Global,
    file: &OpenFile<'_, '_, '_>,
    fault: &Fault,
    other: Option<Position<'_, '_>>,
) -> Result<String, AllocError> {
    let character = character_at(alloc, file, fault.place)?;
    let others = match other {
        Some(position) => position_object(alloc, position)?,
        None => String::new(alloc),
    };
    format!(in alloc; ",\"character\":{character},\"others\":[{others}]")
}

/// The line of what is known about a fault, without its end.
fn line_of(
    alloc: Global,
    about: &str,
    other: Option<Position<'_, '_>>,
) -> Result<String, AllocError> {
    let mut line = String::from_str(alloc, about)?;
    if let Some(position) = other {
        line.push_str(position_text(alloc, position)?.as_str())?;
    }
    Ok(line)
}

/// The message of a fault of this file, of which these words are known, if any are.
pub(crate) fn message_of<'s>(
    alloc: Global,
    form: Form,
    places: &Places,
    named: &Named<'s>,
    others: &mut OtherLines<'s>,
    file: &OpenFile<'_, '_, 's>,
    fault: &Fault,
    words: &Option<Words<'_>>,
) -> Result<Message, AllocError> {
    let about = match words {
        Some(words) => words.about.as_str(),
        None => first_sentence(Topic::Kind(fault.kind).meaning()),
    };
    let other = match words.as_ref().and_then(|words| words.other) {
        Some(other) => position_of(alloc, places, named, others, file, other)?,
        None => None,
    };
    let line = line_of(alloc, about, other)?;
    let row = match form {
        Form::Text if words.is_some() => format!(in alloc; "  {line}\n")?,
        _ => String::new(alloc),
    };
    let members = match form {
        Form::Json => members_of(alloc, file, fault, other)?,
        _ => String::new(alloc),
    };
    Ok(Message { line, row, members })
}
