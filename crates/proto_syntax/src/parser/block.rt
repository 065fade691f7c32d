//! Blocks: items up to a brace.

ghost use Rattle.std.specs.Prelude.{◌≡◌, true};
ghost use Rattle.proto_syntax.specs.Grammar.{◌⨾◌, Many};
ghost use Rattle.proto_syntax.specs.Reading.{decides};
ghost use Rattle.proto_syntax.specs.Language.{symbol};
ghost use Rattle.proto_syntax.specs.Gives.{Reads, body_tree};

use crate::parser::Parser;
use crate::parser::rule::Parse;
use crate::parser::stop::Stop;
use proto_base::Span;

impl<'s, 't> Parser<'s, 't> {
    /// The items of a block, and the brace that closes it.
    #[tactic(auto, using(crate::proofs::Loops::closes_none))]
    pub(crate) fn block_items<I: Parse<'s>>(&mut self) -> Result<(Vec<I>, Span), Stop>
        // One token tells an item from the brace.
        requires { decides (Many I.rule ⨾ symbol "}") ≡ true }
        ensures { Reads (λ p. body_tree I.tree p.0.items p.1) (Many I.rule ⨾ symbol "}") result
            self.old.rest.now self.new.rest.now }
    {
        let mut items = Vec::new(self.alloc);
        'each: loop {
            if let Some(close) = self.optional_symbol('}') {
                return Ok((items, close));
            }
            let item = I::parse(self)?;
            items.push(item)?;
        }
    }
}
