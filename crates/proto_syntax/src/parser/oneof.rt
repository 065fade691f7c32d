//! Oneofs (proto3 language specification, "Oneof and oneof field").

ghost use Rattle.proto_syntax.specs.Language.{oneof_item, oneof};
ghost use Rattle.proto_syntax.specs.Trees.{oneof_item_tree, oneof_tree};

use crate::parser::Parser;
use crate::parser::rule::Parse;
use crate::parser::stop::Stop;
use proto_base::row::Row;
use proto_tree::{Oneof, OneofItem};

impl<'s> Parse<'s> for Oneof<'s> {
    ghost rule = { oneof };

    ghost tree = { oneof_tree };

    #[tactic(auto, using(crate::proofs::Levels::oneof_block), unfolding(crate::specs::Language::oneof))]
    fn parse(parser: &mut Parser<'s, '_>) -> Result<Self, Stop> {
        let keyword = parser.keyword("oneof")?;
        let name = parser.name()?;
        let open_brace = parser.symbol('{')?;
        let (items, close_brace) = parser.block_items()?;
        Ok(Oneof {
            keyword,
            name,
            open_brace,
            items: Row::from_vec(items),
            close_brace,
        })
    }
}

impl<'s> Parse<'s> for OneofItem<'s> {
    ghost rule = { oneof_item };

    ghost tree = { oneof_item_tree };

    #[tactic(auto, using(crate::proofs::Levels::begins_option))]
    fn parse(parser: &mut Parser<'s, '_>) -> Result<Self, Stop> {
        if parser.at_keyword("option") {
            return parser.boxed().map(OneofItem::Option);
        }
        if let Some(span) = parser.optional_symbol(';') {
            return Ok(OneofItem::Empty(span));
        }
        parser.boxed().map(OneofItem::Field)
    }
}
