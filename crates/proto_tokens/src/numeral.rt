//! Numerals.

ghost use Rattle.std.specs.Prelude.{◌≡◌, ◌<◌, ◌≤◌, ◌^◌, ◌↔◌, ℕ, IsTrue, MatchResult, MatchOption};
ghost use Rattle.std.specs.List.{list_all};
ghost use Rattle.std.specs.Char.{digit_value, is_digit, is_ascii_digit};
ghost use Rattle.proto_tokens.specs.Bytes.{begins};
ghost use Rattle.proto_tokens.specs.Numeral.{digits_value, Writes, IsNumeral};
ghost use Rattle.proto_tokens.specs.Steps.{IsNumeralFault};

use proto_base::Kind;

/// What the byte is worth as a digit; 36 if it is none.
pub(crate) fn digit_value(byte: u8) -> u8
    ensures { result ≡ digit_value byte }
{
    match byte {
        b'0'..=b'9' => byte - b'0',
        b'A'..=b'Z' => byte - b'A' + 10,
        b'a'..=b'z' => byte - b'a' + 10,
        _ => 36,
    }
}

pub(crate) fn are_digits(base: u8, digits: &[u8]) -> bool
    ensures { result ≡ list_all (λ d. is_digit d base) digits.now }
{
    digits.iter().all(|digit| digit_value(*digit) < base)
}

/// The number that the digits write, unless it is too big.
pub(crate) fn digits_value(base: u8, digits: &[u8]) -> Option<u64>
    requires { 0 < base }
    ensures { MatchOption result (2 ^ 64 ≤ digits_value base digits.now)
        (λ n. n ≡ digits_value base digits.now) }
{
    let mut value = 0u64;
    for digit in digits {
        value = value
            .checked_mul(u64::from(base))?
            .checked_add(u64::from(digit_value(*digit)))?;
    }
    Some(value)
}

/// The base and the digits of a numeral.
fn numeral_parts(numeral: &[u8]) -> (u8, &[u8])
    requires { IsTrue (begins is_ascii_digit numeral.now) }
    ensures base { 0 < result.0 }
    ensures parts { (n : ℕ) → IsNumeral numeral.now n ↔ Writes result.0 result.1.now n }
{
    match numeral {
        [b'0', b'x' | b'X', _, ..] => (16, &numeral[2..]),
        [b'0', digits @ ..] => (8, digits),
        _ => (10, numeral),
    }
}

/// The number that the whole bytes write.
pub(crate) fn numeral_value(bytes: &[u8]) -> Result<u64, Kind>
    requires { IsTrue (begins is_ascii_digit bytes.now) }
    ensures { MatchResult result (IsNumeral bytes.now) (IsNumeralFault bytes.now) }
{
    let (base, digits) = numeral_parts(bytes);
    if !are_digits(base, digits) {
        return Err(Kind::BadNumber);
    }
    digits_value(base, digits).ok_or(Kind::NumberTooBig)
}
