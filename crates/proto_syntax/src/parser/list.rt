//! Repetitions, and lists with commas.

ghost use Rattle.std.specs.Prelude.{◌≡◌, false};
ghost use Rattle.proto_syntax.specs.Grammar.{Many};
ghost use Rattle.proto_syntax.specs.Reading.{can_be_empty};
ghost use Rattle.proto_syntax.specs.Language.{list_of, next_of};
ghost use Rattle.proto_syntax.specs.Trees.{row, next_tree, separated_tree};
ghost use Rattle.proto_syntax.specs.Gives.{Reads};

use crate::parser::Parser;
use crate::parser::rule::{Parse, Peek};
use crate::parser::stop::Stop;
use proto_base::row::Row;
use proto_tree::{Next, Separated};

impl<'s, 't> Parser<'s, 't> {
    /// As many as follow.
    #[tactic(auto, using(crate::proofs::Loops::rows_none))]
    pub(crate) fn many<I: Peek<'s>>(&mut self) -> Result<Vec<I>, Stop>
        // Each takes a token, so the loop ends.
        requires { can_be_empty I.rule ≡ false }
        ensures { Reads (λ v. row I.tree v.items) (Many I.rule) result self.old.rest.now
            self.new.rest.now }
    {
        let mut items = Vec::new(self.alloc);
        'each: while I::is_next(self) {
            let item = I::parse(self)?;
            items.push(item)?;
        }
        Ok(items)
    }
}

/// One or more, with commas between them.
impl<'s, I: Parse<'s>> Parse<'s> for Separated<I> {
    ghost rule = { list_of I.rule };

    ghost tree = { separated_tree I.tree };

    fn parse(parser: &mut Parser<'s, '_>) -> Result<Self, Stop> {
        let first = I::parse(parser)?;
        let rest = parser.many()?;
        Ok(Separated {
            first,
            rest: Row::from_vec(rest),
        })
    }
}

impl<'s, I: Parse<'s>> Parse<'s> for Next<I> {
    ghost rule = { next_of I.rule };

    ghost tree = { next_tree I.tree };

    fn parse(parser: &mut Parser<'s, '_>) -> Result<Self, Stop> {
        let comma = parser.symbol(',')?;
        let item = I::parse(parser)?;
        Ok(Next { comma, item })
    }
}

impl<'s, I: Parse<'s>> Peek<'s> for Next<I> {
    fn is_next(parser: &Parser<'s, '_>) -> bool {
        parser.at_symbol(',')
    }
}
