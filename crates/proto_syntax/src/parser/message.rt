//! Messages (proto3 language specification, "Message definition").

ghost use Rattle.proto_syntax.specs.Grammar.{◌⨾◌, Many, Left, Right};
ghost use Rattle.proto_syntax.specs.Reading.{mapped, read};
ghost use Rattle.proto_syntax.specs.Language.{message, message_item, map_or_field, symbol};
ghost use Rattle.proto_syntax.specs.Trees.{message_item_tree, message_tree};
ghost use Rattle.proto_syntax.specs.Gives.{Gives, Reads, flat_item, spellings, body_tree};

use crate::parser::Parser;
use crate::parser::item::ItemKind;
use crate::parser::stop::Stop;
use proto_base::Span;
use proto_base::boxed::Boxed;
use proto_base::row::Row;
use proto_tree::{Field, FieldType, FullName, MapField, Message, MessageItem, TypeName};

impl<'s, 't> Parser<'s, 't> {
    /// A statement that begins with the word `map`: a map field, or a field whose type begins so.
    #[tactic(auto, using(crate::proofs::Items::item_map, crate::proofs::Items::item_named), unfolding(crate::specs::Language::map_or_field, crate::specs::Language::map_type, crate::specs::Language::parts))]
    fn map_or_field(&mut self) -> Result<MessageItem<'s>, Stop>
        ensures { Gives message_item_tree result self.new.rest.now
            (mapped (λ x. Right (Right (Right (Right (Right (Left x))))))
            (read map_or_field (spellings self.old.rest.now))) }
    {
        let first = self.word_name("map")?;
        if let Some(open_angle) = self.optional_symbol('<') {
            let map_type = self.map_type(open_angle)?;
            let declarator = self.declarator()?;
            let map = MapField {
                keyword: first.span,
                map_type,
                declarator,
            };
            return Ok(MessageItem::Map(Boxed::new(self.alloc, map)?));
        }
        let rest = self.many()?;
        let declarator = self.declarator()?;
        let name = FullName {
            first,
            rest: Row::from_vec(rest),
        };
        let field = Field {
            label: None,
            field_type: FieldType::Named(TypeName { dot: None, name }),
            declarator,
        };
        Ok(MessageItem::Field(Boxed::new(self.alloc, field)?))
    }

    /// A statement of a message that is no message.
    #[tactic(auto, using(crate::proofs::Levels::begins_words, crate::proofs::Levels::begins_option, crate::proofs::Items::item_enum, crate::proofs::Items::item_option, crate::proofs::Items::item_oneof, crate::proofs::Items::item_reserved, crate::proofs::Items::item_empty), unfolding(crate::specs::Language::reserved, crate::specs::Language::range))]
    fn flat_item(&mut self) -> Result<MessageItem<'s>, Stop>
        ensures { Gives message_item_tree result self.new.rest.now
            (mapped Right (read flat_item (spellings self.old.rest.now))) }
    {
        match self.item_kind() {
            ItemKind::Enum => self.boxed().map(MessageItem::Enum),
            ItemKind::Option => self.boxed().map(MessageItem::Option),
            ItemKind::Oneof => self.boxed().map(MessageItem::Oneof),
            ItemKind::Reserved => self.reserved().map(MessageItem::Reserved),
            ItemKind::Map => self.map_or_field(),
            ItemKind::Empty => {
                let span = self.symbol(';')?;
                Ok(MessageItem::Empty(span))
            }
            ItemKind::Field => self.boxed().map(MessageItem::Field),
        }
    }

    /// A statement of a message.
    #[cycle(message)]
    #[tactic(auto, using(crate::proofs::Levels::begins_message, crate::proofs::Items::item_message))]
    fn message_item(&mut self, depth: u64) -> Result<MessageItem<'s>, Stop>
        ensures { Reads message_item_tree (message_item (message depth)) result self.old.rest.now
            self.new.rest.now }
    {
        if self.at_keyword("message") {
            return self.message(depth).map(MessageItem::Message);
        }
        self.flat_item()
    }

    /// The statements of a message, and the brace that closes it.
    #[cycle(message)]
    #[tactic(auto, using(crate::proofs::Loops::closes_none))]
    fn message_body(&mut self, depth: u64) -> Result<(Vec<MessageItem<'s>>, Span), Stop>
        ensures { Reads (λ p. body_tree message_item_tree p.0.items p.1)
            (Many (message_item (message depth)) ⨾ symbol "}") result self.old.rest.now
            self.new.rest.now }
    {
        let mut items = Vec::new(self.alloc);
        'each: loop {
            if let Some(close) = self.optional_symbol('}') {
                return Ok((items, close));
            }
            let item = self.message_item(depth)?;
            items.push(item)?;
        }
    }

    /// A message of at most that depth, in a box.
    #[cycle(message)]
    #[tactic(auto, using(crate::proofs::Steps::boxed_gives), unfolding(crate::specs::Language::message))]
    pub(crate) fn message(&mut self, depth: u64) -> Result<Boxed<Message<'s>>, Stop>
        ensures { Reads message_tree (message depth) result self.old.rest.now self.new.rest.now }
    {
        if depth == 0 {
            return Err(if self.at_keyword("message") {
                Stop::TooDeep
            } else {
                Stop::Unexpected
            });
        }
        let keyword = self.keyword("message")?;
        let name = self.name()?;
        let open_brace = self.symbol('{')?;
        let (items, close_brace) = self.message_body(depth - 1)?;
        let message = Message {
            keyword,
            name,
            open_brace,
            items: Row::from_vec(items),
            close_brace,
        };
        self.in_box(message)
    }
}
