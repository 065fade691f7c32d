//! Services (proto3 language specification, "Service definition").

ghost use Rattle.std.specs.Prelude.{[], ◌∷◌, codes};
ghost use Rattle.proto_syntax.specs.Grammar.{◌⨾◌, ◌∣◌};
ghost use Rattle.proto_syntax.specs.Language.{word, named_but, rpc_type, rpc_item, rpc_body, rpc, service_item, service};
ghost use Rattle.proto_syntax.specs.Trees.{streamed_tree, rpc_type_tree, rpc_item_tree, rpc_body_tree, rpc_tree, service_item_tree, service_tree};
ghost use Rattle.proto_syntax.specs.Gives.{Reads};

use crate::parser::Parser;
use crate::parser::position::Position;
use crate::parser::rule::Parse;
use crate::parser::stop::Stop;
use proto_base::Span;
use proto_base::row::Row;
use proto_tree::{Rpc, RpcBlock, RpcBody, RpcItem, RpcType, Service, ServiceItem, TypeName};

impl<'s, 't> Parser<'s, 't> {
    /// The name of a type behind the mark `stream`, or without it.
    fn streamed_type(&mut self) -> Result<(Option<Span>, TypeName<'s>), Stop>
        ensures { Reads (λ p. streamed_tree p.0 p.1)
            ((word "stream" ⨾ named_but []) ∣ named_but (codes "stream" ∷ [])) result
            self.old.rest.now self.new.rest.now }
    {
        if let Some(stream) = self.optional_keyword("stream") {
            let name = self.type_name(Position::Free)?;
            return Ok((Some(stream), name));
        }
        let name = self.type_name(Position::Streamable)?;
        Ok((None, name))
    }

    /// The type of a method's input or output.
    #[tactic(auto, unfolding(crate::specs::Language::rpc_type))]
    fn rpc_type(&mut self) -> Result<RpcType<'s>, Stop>
        ensures { Reads rpc_type_tree rpc_type result self.old.rest.now self.new.rest.now }
    {
        let open_paren = self.symbol('(')?;
        let (stream, name) = self.streamed_type()?;
        let close_paren = self.symbol(')')?;
        Ok(RpcType {
            open_paren,
            stream,
            name,
            close_paren,
        })
    }

    /// What ends a method.
    #[tactic(auto, using(crate::proofs::Levels::rpc_block), unfolding(crate::specs::Language::rpc_body))]
    fn rpc_body(&mut self) -> Result<RpcBody<'s>, Stop>
        ensures { Reads rpc_body_tree rpc_body result self.old.rest.now self.new.rest.now }
    {
        if let Some(span) = self.optional_symbol(';') {
            return Ok(RpcBody::Semicolon(span));
        }
        let open_brace = self.symbol('{')?;
        let (items, close_brace) = self.block_items()?;
        Ok(RpcBody::Block(RpcBlock {
            open_brace,
            items: Row::from_vec(items),
            close_brace,
        }))
    }
}

impl<'s> Parse<'s> for Rpc<'s> {
    ghost rule = { rpc };

    ghost tree = { rpc_tree };

    #[tactic(auto, unfolding(crate::specs::Language::rpc))]
    fn parse(parser: &mut Parser<'s, '_>) -> Result<Self, Stop> {
        let keyword = parser.keyword("rpc")?;
        let name = parser.name()?;
        let input = parser.rpc_type()?;
        let returns = parser.keyword("returns")?;
        let output = parser.rpc_type()?;
        let body = parser.rpc_body()?;
        Ok(Rpc {
            keyword,
            name,
            input,
            returns,
            output,
            body,
        })
    }
}

impl<'s> Parse<'s> for Service<'s> {
    ghost rule = { service };

    ghost tree = { service_tree };

    #[tactic(auto, using(crate::proofs::Levels::service_block), unfolding(crate::specs::Language::service))]
    fn parse(parser: &mut Parser<'s, '_>) -> Result<Self, Stop> {
        let keyword = parser.keyword("service")?;
        let name = parser.name()?;
        let open_brace = parser.symbol('{')?;
        let (items, close_brace) = parser.block_items()?;
        Ok(Service {
            keyword,
            name,
            open_brace,
            items: Row::from_vec(items),
            close_brace,
        })
    }
}

impl<'s> Parse<'s> for ServiceItem<'s> {
    ghost rule = { service_item };

    ghost tree = { service_item_tree };

    #[tactic(auto, using(crate::proofs::Levels::begins_rpc, crate::proofs::Levels::begins_option))]
    fn parse(parser: &mut Parser<'s, '_>) -> Result<Self, Stop> {
        if parser.at_keyword("rpc") {
            return parser.boxed().map(ServiceItem::Rpc);
        }
        if parser.at_keyword("option") {
            return parser.boxed().map(ServiceItem::Option);
        }
        let span = parser.symbol(';')?;
        Ok(ServiceItem::Empty(span))
    }
}

impl<'s> Parse<'s> for RpcItem<'s> {
    ghost rule = { rpc_item };

    ghost tree = { rpc_item_tree };

    #[tactic(auto, using(crate::proofs::Levels::begins_option))]
    fn parse(parser: &mut Parser<'s, '_>) -> Result<Self, Stop> {
        if parser.at_keyword("option") {
            return parser.boxed().map(RpcItem::Option);
        }
        let span = parser.symbol(';')?;
        Ok(RpcItem::Empty(span))
    }
}
