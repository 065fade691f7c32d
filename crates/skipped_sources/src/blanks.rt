//! Spaces in place of tokens.

ghost use Rattle.std.specs.Prelude.{◌≡◌, ◌∷◌, [], length, map};
ghost use Rattle.skipped_sources.specs.Losing.{all_blanked, blanked, token_at};
ghost use Rattle.source_folder.specs.Folder.{named_bytes};
ghost use Rattle.source_skip.specs.Skipped.{without};

use proto_base::Span;
use source_folder::NamedText;

/// Puts spaces in place of these bytes, as far as the text has them.
fn blank(text: &mut [u8], span: &Span)
    ensures { text.new ≡ without 0 (token_at span.now ∷ []) text.old }
{
    let end = text.len().min(span.end.offset as usize);
    let start = end.min(span.start.offset as usize);
    text[start..end].fill(b' ');
}

/// Puts spaces in place of all these bytes.
fn blank_each(text: &mut [u8], spans: &[Span])
    ensures { text.new ≡ without 0 (map token_at spans.now) text.old }
{
    for span in spans {
        blank(text, span);
    }
}

/// Puts spaces in place of these bytes of a source.
fn blank_source(source: &mut NamedText, spans: &[Span])
    ensures { named_bytes source.new ≡ blanked (named_bytes source.old) spans.now }
{
    blank_each(source.text.as_mut_slice(), spans);
}

/// Puts spaces in place of the bytes of each source that are listed for it.
pub(crate) fn blank_sources(sources: &mut [NamedText], lists: &[Vec<Span>])
    requires { length lists.now ≡ length sources.old }
    ensures { map named_bytes sources.new
        ≡ all_blanked (map named_bytes sources.old) lists.now }
{
    for (position, spans) in lists.iter().enumerate() {
        blank_source(&mut sources[position], spans.as_slice());
    }
}
