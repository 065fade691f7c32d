//! Reserved numbers and names (proto3 language specification, "Reserved").

ghost use Rattle.std.specs.Prelude.{◌≡◌, false};
ghost use Rattle.std.specs.Str.{byte};
ghost use Rattle.proto_syntax.specs.Grammar.{Optional, ◌⨾◌, ◌∣◌, Pair};
ghost use Rattle.proto_syntax.specs.Reading.{can_be_empty};
ghost use Rattle.proto_syntax.specs.Language.{word, symbol, str, list_of, range_of, reserved_of};
ghost use Rattle.proto_syntax.specs.Trees.{optional, symbol_tree, range_end_tree, range_tree, reserved_items_tree, reserved_tree};
ghost use Rattle.proto_syntax.specs.Gives.{Reads};

use crate::parser::Parser;
use crate::parser::rule::{Parse, Peek};
use crate::parser::stop::Stop;
use proto_base::Span;
use proto_base::boxed::Boxed;
use proto_tree::{Range, RangeEnd, Reserved, ReservedItems, UpperBound};

impl<'s, 't> Parser<'s, 't> {
    /// The end of a range, if there is one.
    fn range_end<N: Peek<'s>>(&mut self) -> Result<Option<RangeEnd<N>>, Stop>
        ensures { Reads (optional (range_end_tree N.tree))
            (Optional (word "to" ⨾ (N.rule ∣ word "max"))) result self.old.rest.now
            self.new.rest.now }
    {
        let Some(to) = self.optional_keyword("to") else {
            return Ok(None);
        };
        if N::is_next(self) {
            let number = N::parse(self)?;
            return Ok(Some(RangeEnd {
                to,
                bound: UpperBound::Number(number),
            }));
        }
        let max = self.keyword("max")?;
        Ok(Some(RangeEnd {
            to,
            bound: UpperBound::Max(max),
        }))
    }

    /// What a `reserved` statement lists, and the semicolon that ends it.
    #[tactic(auto, using(crate::proofs::Levels::begins_ranges))]
    fn reserved_items<N: Peek<'s> + Copy>(&mut self) -> Result<(ReservedItems<'s, N>, Span), Stop>
        // The first token tells a number from a name.
        requires { can_be_empty N.rule ≡ false }
        ensures { Reads (λ p. Pair (reserved_items_tree N.tree p.0) (symbol_tree (byte ";") p.1))
            ((list_of (range_of N.rule) ∣ list_of str) ⨾ symbol ";") result self.old.rest.now
            self.new.rest.now }
    {
        if N::is_next(self) {
            let (ranges, semicolon) = self.closed(';')?;
            return Ok((ReservedItems::Ranges(ranges), semicolon));
        }
        let (names, semicolon) = self.closed(';')?;
        Ok((ReservedItems::Names(names), semicolon))
    }

    /// A `reserved` statement, in a box.
    #[tactic(auto, using(crate::proofs::Steps::boxed_gives))]
    pub(crate) fn reserved<N: Peek<'s> + Copy>(&mut self) -> Result<Boxed<Reserved<'s, N>>, Stop>
        // The first token tells a number from a name.
        requires { can_be_empty N.rule ≡ false }
        ensures { Reads (reserved_tree N.tree) (reserved_of (range_of N.rule)) result
            self.old.rest.now self.new.rest.now }
    {
        let keyword = self.keyword("reserved")?;
        let (items, semicolon) = self.reserved_items()?;
        let reserved = Reserved {
            keyword,
            items,
            semicolon,
        };
        self.in_box(reserved)
    }
}

impl<'s, N: Peek<'s> + Copy> Parse<'s> for Range<N> {
    ghost rule = { range_of N.rule };

    ghost tree = { range_tree N.tree };

    fn parse(parser: &mut Parser<'s, '_>) -> Result<Self, Stop> {
        let start = N::parse(parser)?;
        let end = parser.range_end()?;
        Ok(Range { start, end })
    }
}
