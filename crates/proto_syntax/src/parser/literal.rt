//! Literals and constants (proto3 language specification, "Integer Literals", "String Literals" and "Constant").

ghost use Rattle.proto_syntax.specs.Grammar.{◌∣◌};
ghost use Rattle.proto_syntax.specs.Language.{symbol, str, signed, constant};
ghost use Rattle.proto_syntax.specs.Trees.{str_tree, signed_tree, sign_tree, constant_tree};
ghost use Rattle.proto_syntax.specs.Gives.{Reads, TakesIf};

use crate::parser::Parser;
use crate::parser::rule::{Parse, Peek};
use crate::parser::stop::Stop;
use proto_base::row::Row;
use proto_tree::{
    Constant, ConstantNumber, NumberLiteral, Sign, SignedNumber, StringLiteral, StringValue,
};

impl<'s, 't> Parser<'s, 't> {
    /// The sign of a number, if there is one.
    fn sign(&mut self) -> Option<Sign>
        ensures { TakesIf sign_tree (symbol "-" ∣ symbol "+") result self.old.rest.now
            self.new.rest.now }
    {
        if let Some(span) = self.optional_symbol('-') {
            return Some(Sign::Minus(span));
        }
        self.optional_symbol('+').map(Sign::Plus)
    }

    /// The value of an option.
    #[tactic(auto, unfolding(crate::specs::Language::constant, crate::specs::Language::full, crate::specs::Language::constant_number))]
    pub(crate) fn constant(&mut self) -> Result<Constant<'s>, Stop>
        ensures { Reads constant_tree constant result self.old.rest.now self.new.rest.now }
    {
        if self.at_name() {
            let name = self.full_name()?;
            return Ok(Constant::Name(name));
        }
        let sign = self.sign();
        if sign.is_some() || NumberLiteral::is_next(self) {
            let number = NumberLiteral::parse(self)?;
            return Ok(Constant::Number(ConstantNumber { sign, number }));
        }
        let string = StringValue::parse(self)?;
        Ok(Constant::String(string))
    }
}

impl<'s> Parse<'s> for StringValue<'s> {
    ghost rule = { str };

    ghost tree = { str_tree };

    #[tactic(auto, unfolding(crate::specs::Language::str))]
    fn parse(parser: &mut Parser<'s, '_>) -> Result<Self, Stop> {
        let first = StringLiteral::parse(parser)?;
        let rest = parser.many()?;
        Ok(StringValue {
            first,
            rest: Row::from_vec(rest),
        })
    }
}

impl<'s> Parse<'s> for SignedNumber {
    ghost rule = { signed };

    ghost tree = { signed_tree };

    #[tactic(auto, unfolding(crate::specs::Language::signed))]
    fn parse(parser: &mut Parser<'s, '_>) -> Result<Self, Stop> {
        let minus = parser.optional_symbol('-');
        let number = NumberLiteral::parse(parser)?;
        Ok(SignedNumber { minus, number })
    }
}

impl<'s> Peek<'s> for SignedNumber {
    #[tactic(auto, unfolding(crate::specs::Language::signed))]
    fn is_next(parser: &Parser<'s, '_>) -> bool {
        parser.at_symbol('-') || NumberLiteral::is_next(parser)
    }
}
