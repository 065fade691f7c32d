//! Names and types (proto3 language specification, "Identifiers" and "Fields").

ghost use Rattle.proto_syntax.specs.Language.{part, full, named_but, type_but};
ghost use Rattle.proto_syntax.specs.Position.{excluded_words};
ghost use Rattle.proto_syntax.specs.Trees.{part_tree, full_tree, named_tree, type_tree};
ghost use Rattle.proto_syntax.specs.Gives.{Reads};

use crate::parser::Parser;
use crate::parser::position::Position;
use crate::parser::rule::{Parse, Peek};
use crate::parser::stop::Stop;
use proto_base::row::Row;
use proto_tree::{FieldType, FullName, NamePart, TypeName};

impl<'s, 't> Parser<'s, 't> {
    /// A name with dots.
    #[tactic(auto, unfolding(crate::specs::Language::full, crate::specs::Language::parts))]
    pub(crate) fn full_name(&mut self) -> Result<FullName<'s>, Stop>
        ensures { Reads full_tree full result self.old.rest.now self.new.rest.now }
    {
        let first = self.name()?;
        let rest = self.many()?;
        Ok(FullName {
            first,
            rest: Row::from_vec(rest),
        })
    }

    /// The name of a message or an enum.
    #[tactic(auto, unfolding(crate::specs::Language::named_but, crate::specs::Language::parts))]
    pub(crate) fn type_name(&mut self, position: Position) -> Result<TypeName<'s>, Stop>
        ensures { Reads named_tree (named_but (excluded_words position)) result self.old.rest.now
            self.new.rest.now }
    {
        if let Some(dot) = self.optional_symbol('.') {
            let name = self.full_name()?;
            return Ok(TypeName {
                dot: Some(dot),
                name,
            });
        }
        let first = self.type_word(position)?;
        let rest = self.many()?;
        Ok(TypeName {
            dot: None,
            name: FullName {
                first,
                rest: Row::from_vec(rest),
            },
        })
    }

    /// The type of a field.
    #[tactic(auto, unfolding(crate::specs::Language::type_but))]
    pub(crate) fn field_type(&mut self, position: Position) -> Result<FieldType<'s>, Stop>
        ensures { Reads type_tree (type_but (excluded_words position)) result self.old.rest.now
            self.new.rest.now }
    {
        if let Some((scalar, span)) = self.optional_scalar() {
            return Ok(FieldType::Scalar(scalar, span));
        }
        let name = self.type_name(position)?;
        Ok(FieldType::Named(name))
    }
}

impl<'s> Parse<'s> for NamePart<'s> {
    ghost rule = { part };

    ghost tree = { part_tree };

    fn parse(parser: &mut Parser<'s, '_>) -> Result<Self, Stop> {
        let dot = parser.symbol('.')?;
        let name = parser.name()?;
        Ok(NamePart { dot, name })
    }
}

impl<'s> Peek<'s> for NamePart<'s> {
    fn is_next(parser: &Parser<'s, '_>) -> bool {
        parser.at_symbol('.')
    }
}
