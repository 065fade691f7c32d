//! Options of an element as its descriptor has them (`FileOptions` to `MethodOptions`).

use proto_base::Place;
use proto_base::text::Text;

/// The value of an option: a string, or the number of a boolean or of a choice.
#[derive(Drop)]
pub enum OptionValue<'s> {
    Text(Text<'s>),
    Number(u64),
}

/// A setting that the element's message of options has, by its field number there, at the first token of its name.
#[derive(Drop)]
pub struct OptionDescriptor<'s> {
    pub number: u32,
    pub place: Place,
    pub value: OptionValue<'s>,
}
