//! The messages of `descriptor.proto` that declare a name.

ghost use Rattle.std.specs.Prelude.{◌≡◌};
ghost use Rattle.proto_sets.specs.Elements.{element_in as element_held, kind_of as kind_said};

use proto_desc::name_kind::NameKind;

/// An element that declares a name.
#[derive(Clone, Copy, Debug, PartialEq, Eq)]
pub enum Element {
    Message,
    Enumeration,
    Service,
    Method,
    Field,
    Extension,
    Oneof,
    Value,
}

/// What a field of this number holds in a file's descriptor.
fn element_in_file(number: u32) -> Option<Element>
    ensures { result ≡ element_held None number }
{
    match number {
        4 => Some(Element::Message),
        5 => Some(Element::Enumeration),
        6 => Some(Element::Service),
        7 => Some(Element::Extension),
        _ => None,
    }
}

/// What a field of this number holds in a message's descriptor.
fn element_in_message(number: u32) -> Option<Element>
    ensures { result ≡ element_held (Some Element.Message) number }
{
    match number {
        2 => Some(Element::Field),
        3 => Some(Element::Message),
        4 => Some(Element::Enumeration),
        6 => Some(Element::Extension),
        8 => Some(Element::Oneof),
        _ => None,
    }
}

/// What a field of this number holds, in the descriptor of a file, or in that of an element.
pub(crate) fn element_in(holder: Option<Element>, number: u32) -> Option<Element>
    ensures { result ≡ element_held holder number }
{
    match holder {
        None => element_in_file(number),
        Some(Element::Message) => element_in_message(number),
        Some(Element::Enumeration) => {
            if number == 2 {
                Some(Element::Value)
            } else {
                None
            }
        }
        Some(Element::Service) => {
            if number == 2 {
                Some(Element::Method)
            } else {
                None
            }
        }
        _ => None,
    }
}

/// What the name of an element names: an extension is a field.
pub(crate) fn kind_of(element: Element) -> NameKind
    ensures { result ≡ kind_said element }
{
    match element {
        Element::Message => NameKind::Message,
        Element::Enumeration => NameKind::Enum,
        Element::Service => NameKind::Service,
        Element::Method => NameKind::Method,
        Element::Field | Element::Extension => NameKind::Field,
        Element::Oneof => NameKind::Oneof,
        Element::Value => NameKind::Value,
    }
}
