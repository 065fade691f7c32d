//! A parser with one token of look-ahead.

ghost use Rattle.std.specs.Prelude.{◌≡◌, ℕ, List, IfErr, IfOk, IsErrAnd, MatchResult};
ghost use Rattle.proto_tokens.specs.Token.{Spelled};
ghost use Rattle.proto_tokens.specs.ProgramTokens.{tokens_of};
ghost use Rattle.proto_base.specs.Limits.{limit_of};
ghost use Rattle.proto_base.specs.declared.kind.Kind.{Kind};
ghost use Rattle.proto_tree.specs.declared.file.FileTree.{FileTree};
ghost use Rattle.proto_syntax.specs.Grammar.{Tree};
ghost use Rattle.proto_syntax.specs.Fault.{IsTreeOf, IsFaultAt, IsKindOf};
ghost use Rattle.proto_syntax.specs.Gives.{TellsFault};
ghost use Rattle.proto_syntax.specs.Told.{IsFaultOf, LieWithin, IsPlacedWithin};
ghost use Rattle.proto_syntax.specs.Trees.{file_tree};

mod block;
mod enumeration;
mod fault;
mod field;
mod file;
mod item;
mod list;
mod literal;
mod message;
mod name;
mod oneof;
mod option;
mod position;
mod reserved;
mod rule;
mod scalar;
mod service;
mod stop;
mod terminal;

use crate::error::ParseError;
use fault::{kind_at, place_at};
use proto_base::{Kind, Limit, Limits};
use proto_tokens::{Token, Tokens};
use proto_tree::FileTree;
use std::alloc::Global;
use stop::Stop;

/// The tokens that are still to be read. After a fault they begin at the token that was not expected.
#[derive(Drop)]
pub struct Parser<'s, 't> {
    alloc: Global,
    rest: &'t [Token<'s>],
}

/// The file that these tokens are, or their fault.
fn first_answer<'s>(
    alloc: Global,
    tokens: &Tokens<'s>,
    depth: u64,
) -> Result<FileTree<'s>, ParseError>
    ensures { MatchResult result (λ file. IsTreeOf depth (tokens_of tokens.now) (file_tree file))
        (IsFaultOf depth tokens.now) }
{
    let items = tokens.items.as_slice();
    let mut parser = Parser { alloc, rest: items };
    match parser.file(depth) {
        Ok(file) => Ok(file),
        Err(Stop::NoMemory) => Err(ParseError::NoMemory),
        Err(Stop::TooDeep) => {
            let index = items.len() - parser.rest.len();
            Err(ParseError::At(place_at(tokens, index), Kind::TooDeep))
        }
        Err(Stop::Unexpected) => {
            let index = items.len() - parser.rest.len();
            Err(ParseError::At(place_at(tokens, index), kind_at(items, index)))
        }
    }
}

/// The file that these tokens are, or their first fault.
pub fn parse<'s>(
    alloc: Global,
    tokens: &Tokens<'s>,
    limits: &Limits,
) -> Result<FileTree<'s>, ParseError>
    ensures found { IfOk result (λ file. IsTreeOf (limit_of limits.now Limit.Depth)
        (tokens_of tokens.now) (file_tree file)) }
    ensures fault { IfErr result (IsFaultOf (limit_of limits.now Limit.Depth) tokens.now) }
    ensures within { (n : ℕ) → LieWithin n tokens.now → IfErr result (IsPlacedWithin n) }

    // So tokens that have a tree give it, and others give their fault, unless memory runs out.
    ensures every_tree { (x : Tree) → IsTreeOf (limit_of limits.now Limit.Depth)
        (tokens_of tokens.now) x
        → MatchResult result (λ file. file_tree file ≡ x) (λ e. e ≡ ParseError.NoMemory) }
    ensures every_fault { (k : ℕ) (kind : Kind)
        → IsFaultAt (limit_of limits.now Limit.Depth) (tokens_of tokens.now) k
        → IsKindOf (tokens_of tokens.now) k kind → IsErrAnd result (TellsFault tokens.now k kind) }
{
    first_answer(alloc, tokens, limits.get(Limit::Depth))
}

/// A list of tokens has at most one tree.
pub fn at_most_one_tree()
    ensures { (limit : ℕ) (ts : List Spelled) (x y : Tree) → IsTreeOf limit ts x
        → IsTreeOf limit ts y → x ≡ y }
{}

/// Files with the same tokens are the same.
pub fn at_most_one_file()
    ensures { (limit : ℕ) (ts : List Spelled) (f g : FileTree) → IsTreeOf limit ts (file_tree f)
        → IsTreeOf limit ts (file_tree g) → f ≡ g }
{}

/// A list of tokens has at most one fault.
pub fn at_most_one_fault()
    ensures { (limit : ℕ) (ts : List Spelled) (j k : ℕ) → IsFaultAt limit ts j
        → IsFaultAt limit ts k → j ≡ k }
{}
