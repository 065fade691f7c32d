//! Escapes in string literals.

ghost use Rattle.std.specs.Prelude.{◌≡◌, ◌+◌, ◌<◌, ◌≤◌, ◌∷◌, ◌++◌, OnOk, length, take, IsTrue, ◌⊎◌, MatchOption};
ghost use Rattle.std.specs.List.{prefix_len};
ghost use Rattle.std.specs.Char.{is_digit, IsScalar};
ghost use Rattle.proto_tokens.specs.Bytes.{begins};
ghost use Rattle.proto_tokens.specs.Numeral.{digits_value};
ghost use Rattle.proto_tokens.specs.Escape.{simple_escape, IsAllowedEscape, escaped_bytes};
ghost use Rattle.proto_tokens.specs.Steps.{HasNoEscape, escaped_of};

use crate::numeral::{are_digits, digit_value, digits_value};
use std::alloc::{AllocError, Global};

/// What an escape stands for.
#[derive(Clone, Copy)]
pub(crate) enum Escaped {
    Byte(u8),
    Character(char),
}

/// The byte that a simple escape stands for, by what follows its backslash.
fn simple_escape(byte: u8) -> Option<u8>
    ensures { result ≡ simple_escape byte }
{
    match byte {
        b'a' => Some(7),
        b'b' => Some(8),
        b'f' => Some(12),
        b'n' => Some(10),
        b'r' => Some(13),
        b't' => Some(9),
        b'v' => Some(11),
        b'\\' | b'\'' | b'"' | b'?' => Some(byte),
        _ => None,
    }
}

/// How many digits the bytes begin with, of at most `most`.
fn digits_len(base: u8, bytes: &[u8], most: usize) -> usize
    ensures run { result ≡ prefix_len (λ d. is_digit d base) (take most bytes.now) }
    ensures within { result ≤ length bytes.now }
    ensures at_most { result ≤ most }
{
    bytes
        .iter()
        .take(most)
        .take_while(|digit| digit_value(**digit) < base)
        .count()
}

/// The byte that the digits write, if they write one.
fn byte_value(base: u8, digits: &[u8]) -> Option<u8>
    requires { 0 < base }
    ensures { MatchOption result (256 ≤ digits_value base digits.now)
        (λ byte. byte ≡ digits_value base digits.now) }
{
    u8::try_from(digits_value(base, digits)?).ok()
}

/// The character whose number the digits write, if they write one's.
fn character_value(base: u8, digits: &[u8]) -> Option<char>
    requires { 0 < base }
    ensures { MatchOption result (¬ (IsScalar (digits_value base digits.now)))
        (λ c. (c ≡ digits_value base digits.now) × IsScalar c) }
{
    let code = u32::try_from(digits_value(base, digits)?).ok()?;
    char::from_u32(code)
}

/// The octal escape whose digits these bytes begin with, and its length.
fn octal_escape(digits: &[u8]) -> Option<(Escaped, usize)>
    requires { IsTrue (begins (λ d. is_digit d 8) digits.now) }
    ensures { MatchOption result (HasNoEscape (92 ∷ digits.now))
        (λ found. IsAllowedEscape (92 ∷ digits.now) found.1 (escaped_of found.0)) }
{
    let len = digits_len(8, digits, 3);
    let byte = byte_value(8, &digits[..len])?;
    Some((Escaped::Byte(byte), len + 1))
}

/// The hexadecimal escape of this form whose digits these bytes begin with, and its length.
fn hex_escape(form: u8, digits: &[u8]) -> Option<(Escaped, usize)>
    requires { (form ≡ 120) ⊎ (form ≡ 88) }
    ensures { MatchOption result (HasNoEscape (92 ∷ form ∷ digits.now))
        (λ found. IsAllowedEscape (92 ∷ form ∷ digits.now) found.1 (escaped_of found.0)) }
{
    let len = digits_len(16, digits, 2);
    if len == 0 {
        return None;
    }
    let byte = byte_value(16, &digits[..len])?;
    Some((Escaped::Byte(byte), len + 2))
}

/// The escape of this form of a character, by the first `count` digits.
fn character_escape(form: u8, digits: &[u8], count: usize) -> Option<(Escaped, usize)>
    requires { ((form ≡ 117) × (count ≡ 4)) ⊎ ((form ≡ 85) × (count ≡ 8)) }
    ensures { MatchOption result (HasNoEscape (92 ∷ form ∷ digits.now))
        (λ found. IsAllowedEscape (92 ∷ form ∷ digits.now) found.1 (escaped_of found.0)) }
{
    if digits.len() < count {
        return None;
    }
    let digits = &digits[..count];
    if !are_digits(16, digits) {
        return None;
    }
    let character = character_value(16, digits)?;
    Some((Escaped::Character(character), count + 2))
}

/// The longest escape that these bytes make behind a backslash and its length, if its value is allowed.
pub(crate) fn longest_escape(after: &[u8]) -> Option<(Escaped, usize)>
    ensures { MatchOption result (HasNoEscape (92 ∷ after.now))
        (λ found. IsAllowedEscape (92 ∷ after.now) found.1 (escaped_of found.0)) }
{
    let form = *after.first()?;
    let digits = &after[1..];
    match form {
        b'0'..=b'7' => octal_escape(after),
        b'x' | b'X' => hex_escape(form, digits),
        b'u' => character_escape(form, digits, 4),
        b'U' => character_escape(form, digits, 8),
        _ => Some((Escaped::Byte(simple_escape(form)?), 2)),
    }
}

/// Adds the bytes that an escape stands for.
pub(crate) fn push_escaped(value: &mut Vec<u8>, escaped: Escaped) -> Result<(), AllocError>
    ensures { OnOk result (value.new.items ≡ value.old.items
        ++ escaped_bytes (escaped_of escaped)) }
{
    match escaped {
        Escaped::Byte(byte) => value.push(byte)?,
        Escaped::Character(character) => {
            let mut buffer = [0; 4];
            value.extend_from_slice(character.encode_utf8(&mut buffer).as_bytes())?;
        }
    }
    Ok(())
}
