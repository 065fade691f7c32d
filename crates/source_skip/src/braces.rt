//! Where braces close.

ghost use Rattle.std.specs.Prelude.{map, IfOk};
ghost use Rattle.source_skip.specs.ProgramTokens.{IsClosing, Takes, spelled};
ghost use Rattle.source_skip.specs.Shapes.{Braces};

use crate::token::Token;
use std::alloc::{AllocError, Global};

/// For each token how many stand behind the `}` that closes a brace there, whatever the token is. The entry of a token is at
/// the number of tokens behind it, and there is none where nothing closes the brace. It is found once for all tokens, since
/// a search from each brace would take the square of their number where many do not close.
pub(crate) fn closing_places(
    alloc: Global,
    tokens: &[Token],
) -> Result<Vec<Option<usize>>, AllocError>
    ensures { IfOk result (λ closes. IsClosing closes.items (map spelled tokens.now)) }
{
    let mut closes = Vec::with_capacity(alloc, tokens.len())?;
    let mut left = None;
    let mut at = tokens.len();
    while at > 0 {
        at -= 1;
        let behind = closes.len();
        closes.push(left)?;
        if tokens[at].is_symbol(b'{') {
            left = match left {
                Some(left) => closes[left],
                None => None,
            };
        } else if tokens[at].is_symbol(b'}') {
            left = Some(behind);
        }
    }
    Ok(closes)
}

/// What stands behind braces.
pub(crate) fn braces<'t, 's>(
    tokens: &'t [Token<'s>],
    closes: &[Option<usize>],
) -> Option<&'t [Token<'s>]>
    requires { IsClosing closes.now (map spelled tokens.now) }
    ensures { Takes Braces tokens.now result }
{
    let (brace, inner) = tokens.split_first()?;
    if !brace.is_symbol(b'{') {
        return None;
    }
    let left = closes[inner.len()]?;
    Some(&inner[inner.len() - left..])
}
