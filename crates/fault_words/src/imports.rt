//! What is said of imports that are missing, and of those in a circle.

use crate::budget::{Budget, Nearest};
use crate::known::Known;
use crate::words::Words;
use proto_base::{Fault, Kind, Place};
use proto_desc::file::FileDesc;
use schema_failure::Shown;
use std::alloc::{AllocError, Global};
use std::collections::{BTreeMap, VecDeque};
use std::fmt::Write;

/// The paths that a file imports, by their places.
pub(crate) fn imports_in<'d>(
    alloc: Global,
    desc: &'d FileDesc<'_>,
) -> Result<BTreeMap<Place, &'d str>, AllocError> {
    let mut paths = BTreeMap::new(alloc);
    for import in desc.imports.as_slice() {
        paths.insert(import.place, import.path.as_str())?;
    }
    Ok(paths)
}

/// The name of a file that is most like a path, if one is like it.
fn nearest_name<'s>(
    alloc: Global,
    known: &Known<'_, 's>,
    budget: &mut Budget,
    path: &str,
) -> Result<Option<&'s str>, AllocError> {
    if !budget.take(known.files.len()) {
        return Ok(None);
    }
    let mut nearest = Nearest::new();
    for file in known.files {
        nearest.offer(alloc, path, file.name, file.name)?;
    }
    Ok(nearest.name)
}

/// What is said of an import of a path that names no source.
fn missing_words(
    alloc: Global,
    known: &Known<'_, '_>,
    budget: &mut Budget,
    path: &str,
) -> Result<String, AllocError> {
    let near = nearest_name(alloc, known, budget, path)?;
    let path = Shown(path);
    match near {
        Some(near) => format!(in alloc;
            "no file is called `{path}`; a similar name is `{}`",
            Shown(near)
        ),
        None => format!(in alloc; "`{path}` is no file below the root or an --include"),
    }
}

/// From which file each was reached first, of those that a file reaches.
fn reached_from(
    alloc: Global,
    known: &Known<'_, '_>,
    start: usize,
) -> Result<Vec<Option<usize>>, AllocError> {
    let mut from = vec![in alloc; None; known.files.len()]?;
    let mut waiting = VecDeque::new(alloc);
    waiting.push_back(start)?;
    for _turn in 0..known.files.len() {
        let Some(at) = waiting.pop_front() else {
            return Ok(from);
        };
        put_next(known, at, &mut from, &mut waiting)?;
    }
    Ok(from)
}

/// Puts the files that a file imports behind those that wait, unless they were reached before.
fn put_next(
    known: &Known<'_, '_>,
    at: usize,
    from: &mut [Option<usize>],
    waiting: &mut VecDeque<usize>,
) -> Result<(), AllocError> {
    let Some(desc) = known.desc_at(at) else {
        return Ok(());
    };
    for import in desc.imports.as_slice() {
        let Some(next) = known.position(import.path.as_str()) else {
            continue;
        };
        if let Some(place) = from.get_mut(next) {
            if place.is_none() {
                *place = Some(at);
                waiting.push_back(next)?;
            }
        }
    }
    Ok(())
}

/// The files on the way from a file back to itself, by the import of another: the last of them first.
fn way_back(
    alloc: Global,
    known: &Known<'_, '_>,
    start: usize,
    next: usize,
) -> Result<Vec<usize>, AllocError> {
    let from = reached_from(alloc, known, next)?;
    let mut way = Vec::new(alloc);
    let mut at = start;
    way.push(at)?;
    for _turn in 0..known.files.len() {
        if at == next {
            break;
        }
        let Some(Some(before)) = from.get(at) else {
            break;
        };
        at = *before;
        way.push(at)?;
    }
    Ok(way)
}

/// What is said of an import of a file from which there is a way back.
fn circle_words(
    alloc: Global,
    known: &Known<'_, '_>,
    budget: &mut Budget,
    file: &str,
    path: &str,
) -> Result<Option<String>, AllocError> {
    let (Some(start), Some(next)) = (known.position(file), known.position(path)) else {
        return Ok(None);
    };
    if !budget.take(known.size) {
        return Ok(None);
    }
    let way = way_back(alloc, known, start, next)?;
    let mut text = format!(in alloc; "{}", Shown(file))?;
    for at in way.iter().rev() {
        if let Some(on_way) = known.files.get(*at) {
            write!(text, " -> {}", Shown(on_way.name))?;
        }
    }
    Ok(Some(text))
}

/// What is said of a fault of an import, which has this path.
pub(crate) fn import_words<'s>(
    alloc: Global,
    known: &Known<'_, 's>,
    budget: &mut Budget,
    path: Option<&str>,
    fault: &Fault,
) -> Result<Option<Words<'s>>, AllocError> {
    let Some(path) = path else {
        return Ok(None);
    };
    let about = match fault.kind {
        Kind::ImportMissing => Some(missing_words(alloc, known, budget, path)?),
        Kind::ImportCycle => circle_words(alloc, known, budget, fault.file.as_str(), path)?,
        _ => None,
    };
    Ok(about.map(|about| Words::alone(about)))
}
