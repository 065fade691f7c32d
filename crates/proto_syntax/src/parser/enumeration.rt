//! Enums (proto3 language specification, "Enum definition").

ghost use Rattle.proto_syntax.specs.Language.{value, enum_item, enum};
ghost use Rattle.proto_syntax.specs.Trees.{value_tree, enum_item_tree, enum_tree};

use crate::parser::Parser;
use crate::parser::rule::Parse;
use crate::parser::stop::Stop;
use proto_base::row::Row;
use proto_tree::{Enum, EnumItem, EnumValue};

impl<'s> Parse<'s> for EnumValue<'s> {
    ghost rule = { value };

    ghost tree = { value_tree };

    #[tactic(auto, unfolding(crate::specs::Language::value))]
    fn parse(parser: &mut Parser<'s, '_>) -> Result<Self, Stop> {
        let name = parser.value_name()?;
        let (equals, number, options, semicolon) = parser.numbered()?;
        Ok(EnumValue {
            name,
            equals,
            number,
            options,
            semicolon,
        })
    }
}

impl<'s> Parse<'s> for EnumItem<'s> {
    ghost rule = { enum_item };

    ghost tree = { enum_item_tree };

    #[tactic(auto, using(crate::proofs::Levels::signed_has_token, crate::proofs::Levels::begins_words, crate::proofs::Levels::begins_option), unfolding(crate::specs::Language::ereserved, crate::specs::Language::erange))]
    fn parse(parser: &mut Parser<'s, '_>) -> Result<Self, Stop> {
        if parser.at_keyword("option") {
            return Ok(EnumItem::Option(parser.boxed()?));
        }
        if parser.at_keyword("reserved") {
            return Ok(EnumItem::Reserved(parser.reserved()?));
        }
        if let Some(span) = parser.optional_symbol(';') {
            return Ok(EnumItem::Empty(span));
        }
        Ok(EnumItem::Value(parser.boxed()?))
    }
}

impl<'s> Parse<'s> for Enum<'s> {
    ghost rule = { enum };

    ghost tree = { enum_tree };

    #[tactic(auto, using(crate::proofs::Levels::enum_block))]
    fn parse(parser: &mut Parser<'s, '_>) -> Result<Self, Stop> {
        let keyword = parser.keyword("enum")?;
        let name = parser.name()?;
        let open_brace = parser.symbol('{')?;
        let (items, close_brace) = parser.block_items()?;
        Ok(Enum {
            keyword,
            name,
            open_brace,
            items: Row::from_vec(items),
            close_brace,
        })
    }
}
