//! Texts as if custom options were not there.

ghost use Rattle.std.specs.Prelude.{◌≡◌, ◌-◌, map, IfOk, OnErr, OnOk};
ghost use Rattle.source_skip.specs.Pieces.{loose_tokens};
ghost use Rattle.source_skip.specs.ProgramTokens.{blanked, span_of};
ghost use Rattle.source_skip.specs.Skipped.{goes, skipped};

use crate::gone::gone_spans;
use crate::token::{Span, tokens_of};
use std::alloc::{AllocError, Global};

/// The spans of what goes of a text.
fn spans_of(alloc: Global, text: &[u8]) -> Result<Vec<Span>, AllocError>
    ensures { IfOk result (λ spans. spans.items ≡ map span_of (goes (loose_tokens text.now))) }
{
    let tokens = tokens_of(alloc, text)?;
    gone_spans(alloc, &tokens)
}

/// Writes spaces where the bytes of a span stand, as far as the text has them.
fn blank(text: &mut [u8], span: Span)
    ensures { text.new ≡ blanked 0 span text.old }
{
    let end = span.end.min(text.len());
    let start = span.start.min(end);
    text[start..end].fill(b' ');
}

/// Leaves out of a proto3 source what is of custom options: `option` statements and settings between brackets whose name
/// begins with `(`, those of the options of descriptor.proto that the language leaves out, `extend` blocks, and the word
/// `weak` of an import (proto3 language specification, "Option", "Extensions"; specs/Skipped.antt). Each token of it becomes
/// as many spaces. All else stays, comments and line ends too, so that each place is a place of the source.
///
/// What does not keep the rules of grammar stays, and where a comment or a string does not close, all from there on.
/// An error comes only where the allocator had no memory, and then the text is as it was.
pub fn skip(alloc: Global, text: &mut [u8]) -> Result<(), AllocError>
    ensures skipped { OnOk result (text.new ≡ skipped text.old) }
    ensures unchanged { OnErr result (text.new ≡ text.old) }
{
    let spans = spans_of(alloc, text)?;
    for span in &spans {
        blank(text, *span);
    }
    Ok(())
}
