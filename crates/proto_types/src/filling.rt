//! The walk over a descriptor that puts types where their names are spelled, one after another.
//!
//! Each list is taken as a `Vec`, its items are changed where they are, and it is put back: nothing is copied.

ghost use Rattle.std.specs.Prelude.{List};
ghost use Rattle.proto_desc.specs.declared.options.OptionDescriptor.{OptionDescriptor};
ghost use Rattle.proto_names.specs.declared.resolve.Want.{Want};
ghost use Rattle.proto_types.specs.References.{references_of_type, references_of_kind, references_of_field, references_by_message, references_of_method, references_of_service, references_in};
ghost use Rattle.proto_types.specs.Steps.{AreFilled, IsFilled};
ghost use Rattle.proto_types.specs.Typed.{IsTyped, IsTypedKind, IsTypedField, IsTypedMessage, IsTypedMethod, IsTypedService, IsTypedIn};

use crate::meaning::NamedType;
use proto_base::row::Row;
use proto_desc::field::{FieldDesc, FieldKind};
use proto_desc::file::FileDesc;
use proto_desc::message::MessageDesc;
use proto_desc::service::{MethodDesc, ServiceDesc};
use proto_desc::type_name::TypeReference;
use std::alloc::Global;
use std::collections::VecDeque;
use std::mem;

/// Puts the next type where a name is spelled. (Where there is none, the name stays.)
fn fill_reference<'s>(reference: &mut TypeReference<'s>, types: &mut VecDeque<NamedType>)
    ensures { (want : Want) (options : List OptionDescriptor)
        → IsFilled (λ scope. references_of_type scope want options) IsTyped reference.old
        reference.new types.old.items types.new.items }
{
    match reference {
        TypeReference::Spelled { .. } => match types.pop_front() {
            Some(NamedType { full_name, kind }) => {
                *reference = TypeReference::Resolved { full_name, kind };
            }
            None => {}
        },
        TypeReference::Resolved { .. } => {}
    }
}

fn fill_kind<'s>(kind: &mut FieldKind<'s>, types: &mut VecDeque<NamedType>)
    ensures { (options : List OptionDescriptor)
        → IsFilled (λ scope. references_of_kind scope options) IsTypedKind kind.old kind.new
        types.old.items types.new.items }
{
    match kind {
        FieldKind::Scalar(_) => {}
        FieldKind::Named(reference) => fill_reference(reference, types),
    }
}

/// An item of a row, in which names of types are spelled.
trait Fill {
    ghost use Rattle.std.specs.Prelude.{ℕ, List};
    ghost use Rattle.proto_names.specs.Occurrences.{Occurrence};
    ghost use Rattle.proto_types.specs.References.{Reference};
    ghost use Rattle.proto_types.specs.Steps.{IsFilled};

    /// These names, in a scope.
    ghost references: { List ℕ → Self → List Reference };

    /// Whether another item is this one with its names resolved.
    ghost typed: { List Occurrence → (ℕ → Type 0) → List ℕ → Self → Self → Type 0 };

    /// Puts the next types where names are spelled.
    fn fill(&mut self, alloc: Global, types: &mut VecDeque<NamedType>)
        ensures { IsFilled references typed self.old self.new types.old.items types.new.items };
}

/// Fills the items of a row, one after the other.
fn fill_row<T: Fill + Drop>(alloc: Global, row: &mut Row<T>, types: &mut VecDeque<NamedType>)
    ensures { AreFilled T.references T.typed row.old row.new types.old.items types.new.items }
{
    let mut list = mem::replace(row, Row::new(alloc)).into_vec();
    for position in 0..list.len() {
        list[position].fill(alloc, types);
    }
    let mut filled = Row::from_vec(list);
    mem::swap(row, &mut filled);
}

impl<'s> Fill for FieldDesc<'s> {
    ghost references = { references_of_field };

    ghost typed = { IsTypedField };

    fn fill(&mut self, _alloc: Global, types: &mut VecDeque<NamedType>) {
        fill_kind(&mut self.field_type, types);
    }
}

/// A message, with all within it.
#[cycle(messages)]
fn fill_message<'s>(alloc: Global, message: &mut MessageDesc<'s>, types: &mut VecDeque<NamedType>)
    ensures { IsFilled (λ scope m. references_by_message m scope) IsTypedMessage message.old
        message.new types.old.items types.new.items }
{
    fill_row(alloc, &mut message.fields, types);
    fill_messages(alloc, &mut message.nested, types);
}

#[cycle(messages)]
fn fill_messages<'s>(
    alloc: Global,
    messages: &mut Row<MessageDesc<'s>>,
    types: &mut VecDeque<NamedType>,
)
    ensures { AreFilled (λ scope m. references_by_message m scope) IsTypedMessage messages.old
        messages.new types.old.items types.new.items }
{
    let mut list = mem::replace(messages, Row::new(alloc)).into_vec();
    for position in 0..list.len() {
        fill_message(alloc, &mut list[position], types);
    }
    let mut filled = Row::from_vec(list);
    mem::swap(messages, &mut filled);
}

impl<'s> Fill for MethodDesc<'s> {
    ghost references = { references_of_method };

    ghost typed = { IsTypedMethod };

    fn fill(&mut self, _alloc: Global, types: &mut VecDeque<NamedType>) {
        fill_reference(&mut self.input, types);
        fill_reference(&mut self.output, types);
    }
}

impl<'s> Fill for ServiceDesc<'s> {
    ghost references = { references_of_service };

    ghost typed = { IsTypedService };

    fn fill(&mut self, alloc: Global, types: &mut VecDeque<NamedType>) {
        fill_row(alloc, &mut self.methods, types);
    }
}

/// A file, with a type for each name of a type that it spells.
pub(crate) fn fill_file<'s>(alloc: Global, file: &mut FileDesc<'s>, types: &mut VecDeque<NamedType>)
    ensures { IsFilled references_in IsTypedIn file.old file.new types.old.items
        types.new.items }
{
    fill_messages(alloc, &mut file.messages, types);
    fill_row(alloc, &mut file.services, types);
}
