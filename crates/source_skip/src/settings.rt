//! Settings between brackets.

ghost use Rattle.std.specs.Prelude.{◌≡◌, ◌++◌, length, map, IfOk, OnOk, option_map};
ghost use Rattle.source_skip.specs.ProgramTokens.{IsClosing, span_of, spelled};
ghost use Rattle.source_skip.specs.ProgramSettings.{brackets_of, entry_of};
ghost use Rattle.source_skip.specs.Skipped as spec;

use crate::shapes::{leaving, staying, symbol};
use crate::token::{Span, Token};
use crate::words::Position;
use std::alloc::{AllocError, Global};

/// A setting between brackets.
#[derive(Clone, Copy)]
pub(crate) struct Entry<'t, 's> {
    /// the bracket or the comma before it
    pub(crate) separator: &'t Token<'s>,
    pub(crate) setting: &'t [Token<'s>],
    pub(crate) goes: bool,
    /// what stands behind it
    pub(crate) rest: &'t [Token<'s>],
}

/// Brackets: their settings, and what stands behind them.
#[derive(Drop)]
pub(crate) struct Brackets<'t, 's> {
    pub(crate) entries: Vec<Entry<'t, 's>>,
    pub(crate) rest: &'t [Token<'s>],
}

/// The tokens before what stands behind them.
pub(crate) fn before<'t, 's>(tokens: &'t [Token<'s>], rest: &[Token]) -> &'t [Token<'s>]
    ensures { map spelled result.now ≡ spec.before (map spelled tokens.now) (map spelled rest.now) }
{
    &tokens[..tokens.len().saturating_sub(rest.len())]
}

/// The setting behind a bracket or a comma, if one stands there.
fn entry_behind<'t, 's>(
    separator: &'t Token<'s>,
    tokens: &'t [Token<'s>],
    closes: &[Option<usize>],
) -> Option<Entry<'t, 's>>
    requires { IsClosing closes.now (map spelled tokens.now) }
    ensures { option_map entry_of result
        ≡ spec.entry_of (spelled separator.now) (map spelled tokens.now) }
{
    if let Some(rest) = leaving(tokens, closes, Position::Brackets) {
        return Some(Entry {
            separator,
            setting: before(tokens, rest),
            goes: true,
            rest,
        });
    }
    let rest = staying(tokens, closes, Position::Brackets)?;
    Some(Entry {
        separator,
        setting: before(tokens, rest),
        goes: false,
        rest,
    })
}

/// The brackets at the front, if they stand there.
pub(crate) fn next_brackets<'t, 's>(
    alloc: Global,
    tokens: &'t [Token<'s>],
    closes: &[Option<usize>],
) -> Result<Option<Brackets<'t, 's>>, AllocError>
    requires { IsClosing closes.now (map spelled tokens.now) }
    ensures { IfOk result
        (λ found. option_map brackets_of found
        ≡ spec.brackets (length (map spelled tokens.now)) 91 (map spelled tokens.now)) }
{
    let mut entries = Vec::new(alloc);
    let mut mark = b'[';
    let mut next = tokens.split_first();
    while let Some((separator, setting)) = next {
        if !separator.is_symbol(mark) {
            return Ok(None);
        }
        let Some(entry) = entry_behind(separator, setting, closes) else {
            return Ok(None);
        };
        entries.push(entry)?;
        if let Some(behind) = symbol(entry.rest, b']') {
            return Ok(Some(Brackets {
                entries,
                rest: behind,
            }));
        }
        mark = b',';
        next = entry.rest.split_first();
    }
    Ok(None)
}

/// Adds the spans of tokens.
pub(crate) fn push_spans(spans: &mut Vec<Span>, tokens: &[Token]) -> Result<(), AllocError>
    ensures { OnOk result
        (spans.new.items ≡ spans.old.items ++ map span_of (map spelled tokens.now)) }
{
    for token in tokens {
        spans.push(token.span)?;
    }
    Ok(())
}

/// Adds the spans of what goes of a setting, with or without what stands before it.
fn push_entry(spans: &mut Vec<Span>, entry: &Entry, separated: bool) -> Result<(), AllocError>
    ensures { OnOk result (spans.new.items
        ≡ spans.old.items ++ map span_of (spec.gone_of separated (entry_of entry.now))) }
{
    if separated {
        spans.push(entry.separator.span)?;
    }
    if entry.goes {
        push_spans(spans, entry.setting)?;
    }
    Ok(())
}

/// Adds the spans of what goes of settings of which one stays. With one that goes the comma before it goes; of one that stays
/// this comma goes where none before it stays. The bracket stays.
pub(crate) fn push_settings(spans: &mut Vec<Span>, entries: &[Entry]) -> Result<(), AllocError>
    ensures { OnOk result (spans.new.items
        ≡ spans.old.items ++ map span_of (spec.gone_within (map entry_of entries.now))) }
{
    let Some((first, later)) = entries.split_first() else {
        return Ok(());
    };
    push_entry(spans, first, false)?;
    let mut stands = !first.goes;
    for entry in later {
        push_entry(spans, entry, entry.goes | !stands)?;
        stands |= !entry.goes;
    }
    Ok(())
}

/// Whether no setting stays.
pub(crate) fn all_go(entries: &[Entry]) -> bool
    ensures { result ≡ spec.all_go (map entry_of entries.now) }
{
    entries.iter().all(|entry| entry.goes)
}
