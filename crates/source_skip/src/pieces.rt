//! The pieces of a text, whatever is wrong with it.

ghost use Rattle.std.specs.Prelude.{◌≡◌, ◌≤◌, ◌+◌, false, length, option_map, IfSome};
ghost use Rattle.std.specs.List.{prefix_len};
ghost use Rattle.proto_tokens.specs.Bytes as bytes_spec;
ghost use Rattle.source_skip.specs.Pieces as spec;
ghost use Rattle.source_skip.specs.ProgramPieces.{piece_in, slash_piece};

fn is_blank(byte: u8) -> bool
    ensures { result ≡ bytes_spec.is_blank byte }
{
    matches!(byte, b' ' | b'\t'..=b'\r')
}

pub(crate) fn is_letter(byte: u8) -> bool
    ensures { result ≡ bytes_spec.is_letter byte }
{
    byte.is_ascii_alphabetic() || byte == b'_'
}

pub(crate) fn is_word(byte: u8) -> bool
    ensures { result ≡ bytes_spec.is_word byte }
{
    byte.is_ascii_alphanumeric() || byte == b'_'
}

pub(crate) fn is_quote(byte: u8) -> bool
    ensures { result ≡ bytes_spec.is_quote byte }
{
    matches!(byte, b'"' | b'\'')
}

fn is_punctuation(byte: u8) -> bool
    ensures { result ≡ bytes_spec.is_punctuation byte }
{
    byte.is_ascii_graphic() && !(is_word(byte) || is_quote(byte))
}

/// How many blanks the bytes begin with.
fn blanks_len(bytes: &[u8]) -> usize
    ensures run { result ≡ prefix_len bytes_spec.is_blank bytes.now }
    ensures within { result ≤ length bytes.now }
{
    bytes.iter().take_while(|byte| is_blank(**byte)).count()
}

/// How many letters, digits and `_` the bytes begin with.
fn word_len(bytes: &[u8]) -> usize
    ensures run { result ≡ prefix_len bytes_spec.is_word bytes.now }
    ensures within { result ≤ length bytes.now }
{
    bytes.iter().take_while(|byte| is_word(**byte)).count()
}

/// How many bytes stand before the first LF.
fn line_len(bytes: &[u8]) -> usize
    ensures run { result ≡ prefix_len bytes_spec.is_in_line bytes.now }
    ensures within { result ≤ length bytes.now }
{
    bytes.iter().take_while(|byte| **byte != b'\n').count()
}

/// The bytes up to the next quote and with it, if there is one before the end of the line.
fn string_len(quote: u8, bytes: &[u8]) -> Option<usize>
    ensures found { result ≡ spec.string_len quote false bytes.now }
    ensures within { IfSome result (λ n. n ≤ length bytes.now) }
{
    let mut taken = false;
    let mut at = 0;
    while at < bytes.len() {
        let byte = bytes[at];
        if byte == b'\n' || byte == 0 {
            return None;
        }
        if !taken && byte == quote {
            return Some(at + 1);
        }
        taken = !taken && byte == b'\\';
        at += 1;
    }
    None
}

/// The bytes up to the next `*/` and with it, if there is one.
fn comment_len(bytes: &[u8]) -> Option<usize>
    ensures found { result ≡ spec.comment_len false bytes.now }
    ensures within { IfSome result (λ n. n ≤ length bytes.now) }
{
    let mut star = false;
    let mut at = 0;
    while at < bytes.len() {
        let byte = bytes[at];
        if star && byte == b'/' {
            return Some(at + 1);
        }
        star = byte == b'*';
        at += 1;
    }
    None
}

/// What a `/` begins, by the bytes behind it: how many bytes, and whether they are a token.
fn comment_or_slash(bytes: &[u8]) -> Option<(usize, bool)>
    ensures found { option_map (λ p. slash_piece p.0 p.1) result ≡ spec.comment_or_slash bytes.now }
    ensures within { IfSome result (λ p. p.0 ≤ 1 + length bytes.now) }
    ensures some { IfSome result (λ p. 1 ≤ p.0) }
{
    match bytes.split_first() {
        Some((b'/', rest)) => Some((2 + line_len(rest), false)),
        Some((b'*', rest)) => match comment_len(rest) {
            Some(len) => Some((2 + len, false)),
            None => None,
        },
        _ => Some((1, true)),
    }
}

/// The piece at the front: how many bytes, and whether they are a token.
pub(crate) fn first_piece(text: &[u8]) -> Option<(usize, bool)>
    ensures found { option_map (λ p. piece_in text.now p.0 p.1) result ≡ spec.first_piece text.now }
    ensures within { IfSome result (λ p. p.0 ≤ length text.now) }
    ensures some { IfSome result (λ p. 1 ≤ p.0) }
{
    let (byte, rest) = text.split_first()?;
    if is_blank(*byte) {
        Some((1 + blanks_len(rest), false))
    } else if is_word(*byte) {
        Some((1 + word_len(rest), true))
    } else if *byte == b'/' {
        comment_or_slash(rest)
    } else if is_quote(*byte) {
        match string_len(*byte, rest) {
            Some(len) => Some((1 + len, true)),
            None => None,
        }
    } else if is_punctuation(*byte) {
        Some((1, true))
    } else {
        None
    }
}
