//! Which tokens of a text are imports of what is not among the sources.

ghost use Rattle.std.specs.Prelude.{◌≡◌, ◌++◌, ℕ, IfOk, List, OnOk, flat_map, map};
ghost use Rattle.proto_syntax.specs.Grammar.{flatten};
ghost use Rattle.proto_syntax.specs.Trees.{import_tree, str_tree};
ghost use Rattle.skipped_sources.specs.Losing.{HoldsNames, LosesSpans, extent_of, extents};
ghost use Rattle.skipped_sources.specs.Lost.{lost_of};

use proto_base::{Limits, Span};
use proto_syntax::{ParseError, parse};
use proto_tokens::{TokenError, tokenize};
use proto_tree::text::joined;
use proto_tree::{FileTree, Import, Statement, StringValue};
use std::alloc::{AllocError, Global};
use std::collections::BTreeSet;

/// Adds the spans of strings side by side.
fn put_strings(spans: &mut Vec<Span>, value: &StringValue) -> Result<(), AllocError>
    ensures { OnOk result (extents spans.new.items ≡ extents spans.old.items
        ++ map extent_of (flatten (str_tree value.now))) }
{
    spans.push(value.first.span)?;
    for literal in value.rest.as_slice() {
        spans.push(literal.span)?;
    }
    Ok(())
}

/// Adds the spans of the tokens of an import.
fn put_import(spans: &mut Vec<Span>, import: &Import) -> Result<(), AllocError>
    ensures { OnOk result (extents spans.new.items ≡ extents spans.old.items
        ++ map extent_of (flatten (import_tree import.now))) }
{
    spans.push(import.keyword)?;
    if let Some(public) = import.public {
        spans.push(public)?;
    }
    put_strings(spans, &import.path)?;
    spans.push(import.semicolon)?;
    Ok(())
}

/// Adds the spans of the tokens of a statement, if it is an import that names none of these.
fn put_lost(
    alloc: Global,
    spans: &mut Vec<Span>,
    statement: &Statement,
    names: &BTreeSet<&str>,
) -> Result<(), AllocError>
    ensures { OnOk result ((listed : List (List ℕ)) → HoldsNames listed names.now
        → extents spans.new.items ≡ extents spans.old.items
        ++ map extent_of (lost_of listed statement.now)) }
{
    let Statement::Import(import) = statement else {
        return Ok(());
    };
    let import = import.get();
    let path = joined(alloc, &import.path)?;
    if names.contains(path.as_str()) {
        return Ok(());
    }
    put_import(spans, import)
}

/// The spans of the tokens of a file's imports that name none of these.
fn lost_in_file(
    alloc: Global,
    file: &FileTree,
    names: &BTreeSet<&str>,
) -> Result<Vec<Span>, AllocError>
    ensures { IfOk result (λ spans. (listed : List (List ℕ)) → HoldsNames listed names.now
        → extents spans.items
        ≡ map extent_of (flat_map (lost_of listed) file.now.statements)) }
{
    let mut spans = Vec::new(alloc);
    for statement in file.statements.as_slice() {
        put_lost(alloc, &mut spans, statement, names)?;
    }
    Ok(spans)
}

/// The spans of the tokens that a text loses: those of its imports that name none of these. A text that is no file by its
/// tokens and its grammar loses none.
pub(crate) fn lost_in(
    alloc: Global,
    text: &[u8],
    names: &BTreeSet<&str>,
    limits: &Limits,
) -> Result<Vec<Span>, AllocError>
    ensures { IfOk result (λ spans. (listed : List (List ℕ)) → HoldsNames listed names.now
        → LosesSpans limits.now listed text.now spans.items) }
{
    let tokens = match tokenize(alloc, text, limits) {
        Ok(tokens) => tokens,
        Err(TokenError::NoMemory) => return Err(AllocError),
        Err(TokenError::At(_, _)) => return Ok(Vec::new(alloc)),
    };
    match parse(alloc, &tokens, limits) {
        Ok(file) => lost_in_file(alloc, &file, names),
        Err(ParseError::NoMemory) => Err(AllocError),
        Err(ParseError::At(_, _)) => Ok(Vec::new(alloc)),
    }
}
