//! Types that stand for a rule of the grammar.

ghost use Rattle.std.specs.Prelude.{◌≡◌, MatchResult};
ghost use Rattle.proto_syntax.specs.declared.parser.stop.Stop.TheVariants.{NoMemory};
ghost use Rattle.proto_syntax.specs.Grammar.{◌⨾◌, One, Symbol, Optional, Pair};
ghost use Rattle.proto_syntax.specs.Reading.{read};
ghost use Rattle.proto_syntax.specs.Language.{symbol};
ghost use Rattle.proto_syntax.specs.Trees.{symbol_tree, optional};
ghost use Rattle.proto_syntax.specs.Gives.{Reads, numbered_tree};

use crate::parser::Parser;
use crate::parser::stop::Stop;
use proto_base::Span;
use proto_base::boxed::Boxed;

/// What a rule of the grammar is read to.
pub(crate) trait Parse<'s>: Sized + Drop {
    ghost use Rattle.proto_syntax.specs.Grammar.{Grammar, Tree};
    ghost use Rattle.proto_syntax.specs.Gives.{Reads};

    /// The rule.
    ghost rule: { Grammar };

    /// The tree that a value stands for.
    ghost tree: { Self → Tree };

    /// What the next tokens are, by the rule.
    fn parse(parser: &mut Parser<'s, '_>) -> Result<Self, Stop>
        ensures { Reads tree rule result parser.old.rest.now parser.new.rest.now };
}

/// What one token of look-ahead tells from what else may stand there.
pub(crate) trait Peek<'s>: Parse<'s> {
    ghost use Rattle.std.specs.Prelude.{◌≡◌};
    ghost use Rattle.proto_syntax.specs.Reading.{begins, next_fits};
    ghost use Rattle.proto_syntax.specs.Gives.{spellings};

    /// Whether the next token begins one.
    fn is_next(parser: &Parser<'s, '_>) -> bool
        ensures { result ≡ next_fits (begins Self.rule) (spellings parser.now.rest.now) };
}

impl<'s, 't> Parser<'s, 't> {
    /// A value in a box.
    pub(crate) fn in_box<T: Drop>(&self, value: T) -> Result<Boxed<T>, Stop>
        ensures { MatchResult result (λ boxed. boxed ≡ value) (λ stop. stop ≡ NoMemory) }
    {
        Ok(Boxed::new(self.alloc, value)?)
    }

    /// What the next tokens are by the rule of a type, in a box.
    #[tactic(auto, using(crate::proofs::Steps::boxed_gives))]
    pub(crate) fn boxed<T: Parse<'s>>(&mut self) -> Result<Boxed<T>, Stop>
        ensures { Reads T.tree T.rule result self.old.rest.now self.new.rest.now }
    {
        let value = T::parse(self)?;
        self.in_box(value)
    }

    /// What the next tokens are by the rule of a type, and the symbol behind it.
    pub(crate) fn closed<T: Parse<'s>>(&mut self, symbol: char) -> Result<(T, Span), Stop>
        ensures { Reads (λ p. Pair (T.tree p.0) (symbol_tree symbol p.1))
            (T.rule ⨾ One (Symbol symbol)) result self.old.rest.now self.new.rest.now }
    {
        let value = T::parse(self)?;
        let close = self.symbol(symbol)?;
        Ok((value, close))
    }

    /// The number of an element and what stands behind it, from the sign `=` up to the semicolon.
    pub(crate) fn numbered<N: Parse<'s>, O: Parse<'s>>(
        &mut self,
    ) -> Result<(Span, N, O, Span), Stop>
        ensures { Reads (λ p. numbered_tree N.tree O.tree p.0 p.1 p.2 p.3)
            (symbol "=" ⨾ N.rule ⨾ O.rule ⨾ symbol ";") result self.old.rest.now self.new.rest.now }
    {
        let equals = self.symbol('=')?;
        let number = N::parse(self)?;
        let (options, semicolon) = self.closed(';')?;
        Ok((equals, number, options, semicolon))
    }
}

/// The same, behind a pointer.
impl<'s, T: Parse<'s>> Parse<'s> for Boxed<T> {
    ghost rule = { T.rule };

    ghost tree = { T.tree };

    fn parse(parser: &mut Parser<'s, '_>) -> Result<Self, Stop> {
        parser.boxed()
    }
}

impl<'s, T: Peek<'s>> Peek<'s> for Boxed<T> {
    fn is_next(parser: &Parser<'s, '_>) -> bool {
        T::is_next(parser)
    }
}

/// One, if the next token begins it.
impl<'s, T: Peek<'s>> Parse<'s> for Option<T> {
    ghost rule = { Optional T.rule };

    ghost tree = { optional T.tree };

    fn parse(parser: &mut Parser<'s, '_>) -> Result<Self, Stop> {
        if T::is_next(parser) {
            let value = T::parse(parser)?;
            return Ok(Some(value));
        }
        Ok(None)
    }
}
