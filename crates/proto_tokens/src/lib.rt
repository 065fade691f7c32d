//! What a proto3 source is made of: its tokens.
//!
//! The standard is the proto3 language specification, "Lexical elements". Limits, places and faults are types of the crate
//! `proto_base`, which this crate's calls take and give.
#![tactic(auto)]

mod bytes;
mod escape;
mod numeral;
mod piece;
mod quoted;
mod token;
mod tokenizer;

pub use proto_base::{Fault, Kind, Limit, Limits, Place, line_column};
pub use token::{Token, TokenError, TokenKind, Tokens};
pub use tokenizer::tokenize;
