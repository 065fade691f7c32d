//! Fields (proto3 language specification, "Normal Field", "Map field" and "Oneof and oneof field").

ghost use Rattle.std.specs.Prelude.{[]};
ghost use Rattle.std.specs.Str.{byte};
ghost use Rattle.proto_syntax.specs.Grammar.{◌⨾◌, Pair};
ghost use Rattle.proto_syntax.specs.Reading.{mapped, read};
ghost use Rattle.proto_syntax.specs.Language.{symbol, key, type_but, declarator, label, field_head, field, member};
ghost use Rattle.proto_syntax.specs.Trees.{symbol_tree, declarator_tree, label_tree, field_head_tree, field_tree, map_type_tree, member_tree};
ghost use Rattle.proto_syntax.specs.Gives.{Gives, Reads, TakesIf, spellings};

use crate::parser::Parser;
use crate::parser::position::Position;
use crate::parser::rule::Parse;
use crate::parser::stop::Stop;
use proto_base::Span;
use proto_tree::{Declarator, Field, FieldType, Label, MapType, OneofField};

impl<'s, 't> Parser<'s, 't> {
    /// What stands behind the type of a field.
    #[tactic(auto, unfolding(crate::specs::Language::declarator))]
    pub(crate) fn declarator(&mut self) -> Result<Declarator<'s>, Stop>
        ensures { Reads declarator_tree declarator result self.old.rest.now self.new.rest.now }
    {
        let name = self.name()?;
        let (equals, number, options, semicolon) = self.numbered()?;
        Ok(Declarator {
            name,
            equals,
            number,
            options,
            semicolon,
        })
    }

    /// The label of a field, if there is one.
    fn label(&mut self) -> Option<Label>
        ensures { TakesIf label_tree label result self.old.rest.now self.new.rest.now }
    {
        if let Some(span) = self.optional_keyword("optional") {
            return Some(Label::Optional(span));
        }
        self.optional_keyword("repeated").map(Label::Repeated)
    }

    /// The label and the type of a field.
    #[tactic(auto, unfolding(crate::specs::Language::field_head))]
    fn field_head(&mut self) -> Result<(Option<Label>, FieldType<'s>), Stop>
        ensures { Reads (λ p. field_head_tree p.0 p.1) field_head result self.old.rest.now
            self.new.rest.now }
    {
        if let Some(label) = self.label() {
            let field_type = self.field_type(Position::Labelled)?;
            return Ok((Some(label), field_type));
        }
        let field_type = self.field_type(Position::Statement)?;
        Ok((None, field_type))
    }

    /// The types of a map, behind the angle bracket that opens them.
    pub(crate) fn map_type(&mut self, open_angle: Span) -> Result<MapType<'s>, Stop>
        ensures { Gives map_type_tree result self.new.rest.now
            (mapped (Pair (symbol_tree (byte "<") open_angle))
            (read (key ⨾ symbol "," ⨾ type_but [] ⨾ symbol ">") (spellings self.old.rest.now))) }
    {
        let (key, key_span) = self.key()?;
        let comma = self.symbol(',')?;
        let value = self.field_type(Position::Free)?;
        let close_angle = self.symbol('>')?;
        Ok(MapType {
            open_angle,
            key,
            key_span,
            comma,
            value,
            close_angle,
        })
    }
}

impl<'s> Parse<'s> for Field<'s> {
    // Of a statement that does not begin with the word `map`.
    ghost rule = { field };

    ghost tree = { field_tree };

    #[tactic(auto, unfolding(crate::specs::Language::field))]
    fn parse(parser: &mut Parser<'s, '_>) -> Result<Self, Stop> {
        let (label, field_type) = parser.field_head()?;
        let declarator = parser.declarator()?;
        Ok(Field {
            label,
            field_type,
            declarator,
        })
    }
}

impl<'s> Parse<'s> for OneofField<'s> {
    ghost rule = { member };

    ghost tree = { member_tree };

    #[tactic(auto, unfolding(crate::specs::Language::member))]
    fn parse(parser: &mut Parser<'s, '_>) -> Result<Self, Stop> {
        let field_type = parser.field_type(Position::Member)?;
        let declarator = parser.declarator()?;
        Ok(OneofField {
            field_type,
            declarator,
        })
    }
}
