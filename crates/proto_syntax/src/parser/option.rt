//! Options (proto3 language specification, "Option").

ghost use Rattle.proto_syntax.specs.Language.{setting, options, option};
ghost use Rattle.proto_syntax.specs.Trees.{setting_tree, options_tree, option_tree};

use crate::parser::Parser;
use crate::parser::rule::{Parse, Peek};
use crate::parser::stop::Stop;
use proto_tree::{OptionStatement, Options, Setting};

impl<'s> Parse<'s> for Options<'s> {
    ghost rule = { options };

    ghost tree = { options_tree };

    #[tactic(auto, unfolding(crate::specs::Language::options))]
    fn parse(parser: &mut Parser<'s, '_>) -> Result<Self, Stop> {
        let open_bracket = parser.symbol('[')?;
        let (settings, close_bracket) = parser.closed(']')?;
        Ok(Options {
            open_bracket,
            settings,
            close_bracket,
        })
    }
}

impl<'s> Peek<'s> for Options<'s> {
    #[tactic(auto, unfolding(crate::specs::Language::options))]
    fn is_next(parser: &Parser<'s, '_>) -> bool {
        parser.at_symbol('[')
    }
}

impl<'s> Parse<'s> for Setting<'s> {
    ghost rule = { setting };

    ghost tree = { setting_tree };

    #[tactic(auto, unfolding(crate::specs::Language::setting))]
    fn parse(parser: &mut Parser<'s, '_>) -> Result<Self, Stop> {
        let name = parser.full_name()?;
        let equals = parser.symbol('=')?;
        let value = parser.constant()?;
        Ok(Setting {
            name,
            equals,
            value,
        })
    }
}

impl<'s> Parse<'s> for OptionStatement<'s> {
    ghost rule = { option };

    ghost tree = { option_tree };

    #[tactic(auto, unfolding(crate::specs::Language::option))]
    fn parse(parser: &mut Parser<'s, '_>) -> Result<Self, Stop> {
        let keyword = parser.keyword("option")?;
        let (setting, semicolon) = parser.closed(';')?;
        Ok(OptionStatement {
            keyword,
            setting,
            semicolon,
        })
    }
}
