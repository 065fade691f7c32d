//! What goes of a list of tokens.

ghost use Rattle.std.specs.Prelude.{◌≡◌, ◌++◌, map, IfOk, OnOk, option_map, length};
ghost use Rattle.source_skip.specs.ProgramFronts.{front_of, gone_of};
ghost use Rattle.source_skip.specs.ProgramTokens.{IsClosing, span_of, spelled};
ghost use Rattle.source_skip.specs.Skipped as spec;

use crate::braces::closing_places;
use crate::settings::{Brackets, Entry, all_go, before, next_brackets, push_settings, push_spans};
use crate::shapes::{statement, text, word};
use crate::token::{Span, Token};
use std::alloc::{AllocError, Global};

/// What goes of a front.
#[derive(Drop)]
pub(crate) enum Gone<'t, 's> {
    Nothing,
    Tokens(&'t [Token<'s>]),
    /// what goes of settings of which one stays
    Settings(Vec<Entry<'t, 's>>),
}

/// What stands at the front of tokens: what goes of it, what stands behind it, and whether a statement begins there.
#[derive(Drop)]
pub(crate) struct Front<'t, 's> {
    pub(crate) gone: Gone<'t, 's>,
    pub(crate) rest: &'t [Token<'s>],
    pub(crate) starts: bool,
}

fn statement_front<'t, 's>(
    tokens: &'t [Token<'s>],
    closes: &[Option<usize>],
) -> Option<Front<'t, 's>>
    requires { IsClosing closes.now (map spelled tokens.now) }
    ensures { option_map front_of result ≡ spec.statement_front (map spelled tokens.now) }
{
    let rest = statement(tokens, closes)?;
    Some(Front {
        gone: Gone::Tokens(before(tokens, rest)),
        rest,
        starts: true,
    })
}

/// An import that says `weak`, which goes.
fn weak_front<'t, 's>(tokens: &'t [Token<'s>]) -> Option<Front<'t, 's>>
    ensures { option_map front_of result ≡ spec.weak_front (map spelled tokens.now) }
{
    let weak = word(tokens, b"import")?;
    let path = word(weak, b"weak")?;
    let rest = text(path)?;
    Some(Front {
        gone: Gone::Tokens(before(weak, path)),
        rest,
        starts: false,
    })
}

fn brackets_front<'t, 's>(
    alloc: Global,
    tokens: &'t [Token<'s>],
    closes: &[Option<usize>],
) -> Result<Option<Front<'t, 's>>, AllocError>
    requires { IsClosing closes.now (map spelled tokens.now) }
    ensures { IfOk result
        (λ found. option_map front_of found ≡ spec.brackets_front (map spelled tokens.now)) }
{
    let Some(Brackets { entries, rest }) = next_brackets(alloc, tokens, closes)? else {
        return Ok(None);
    };
    let gone = if all_go(&entries) {
        Gone::Tokens(before(tokens, rest))
    } else {
        Gone::Settings(entries)
    };
    Ok(Some(Front {
        gone,
        rest,
        starts: false,
    }))
}

/// Any other token: it stays.
fn token_front<'t, 's>(tokens: &'t [Token<'s>]) -> Option<Front<'t, 's>>
    ensures { option_map front_of result ≡ spec.token_front (map spelled tokens.now) }
{
    let (token, rest) = tokens.split_first()?;
    Some(Front {
        gone: Gone::Nothing,
        rest,
        starts: token.is_symbol(b';') || token.is_symbol(b'{') || token.is_symbol(b'}'),
    })
}

/// What stands at the front, where a statement begins or none does. There is none of no tokens.
fn next_front<'t, 's>(
    alloc: Global,
    tokens: &'t [Token<'s>],
    closes: &[Option<usize>],
    starts: bool,
) -> Result<Option<Front<'t, 's>>, AllocError>
    requires { IsClosing closes.now (map spelled tokens.now) }
    ensures { IfOk result
        (λ found. option_map front_of found ≡ spec.front_of starts (map spelled tokens.now)) }
{
    if starts {
        if let Some(front) = statement_front(tokens, closes) {
            return Ok(Some(front));
        }
        if let Some(front) = weak_front(tokens) {
            return Ok(Some(front));
        }
    }
    match brackets_front(alloc, tokens, closes)? {
        Some(front) => Ok(Some(front)),
        None => Ok(token_front(tokens)),
    }
}

/// Adds the spans of what goes.
fn push_gone(spans: &mut Vec<Span>, gone: &Gone) -> Result<(), AllocError>
    ensures { OnOk result (spans.new.items ≡ spans.old.items ++ map span_of (gone_of gone.now)) }
{
    match gone {
        Gone::Nothing => Ok(()),
        Gone::Tokens(tokens) => push_spans(spans, tokens),
        Gone::Settings(entries) => push_settings(spans, entries),
    }
}

/// The spans of the tokens that go.
pub(crate) fn gone_spans(alloc: Global, tokens: &[Token]) -> Result<Vec<Span>, AllocError>
    ensures { IfOk result (λ spans. spans.items ≡ map span_of (spec.goes (map spelled tokens.now))) }
{
    let closes = closing_places(alloc, tokens)?;
    let mut spans = Vec::new(alloc);
    let mut next = next_front(alloc, tokens, &closes, true)?;
    while let Some(front) = next {
        push_gone(&mut spans, &front.gone)?;
        next = next_front(alloc, front.rest, &closes, front.starts)?;
    }
    Ok(spans)
}
