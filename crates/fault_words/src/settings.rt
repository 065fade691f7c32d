//! What is said of options: which of them an element has, and what values they take.

use crate::budget::Nearest;
use crate::rules::Rules;
use proto_base::boxed::Boxed;
use proto_base::{Kind, Place};
use proto_desc::rules::{Element, OptionRule, ValueKind, rules};
use proto_options::Item;
use proto_tree::text::dotted;
use proto_tree::{Constant, Options, Setting, Sign};
use std::alloc::{AllocError, Global};
use std::collections::BTreeMap;

/// An element, in words.
fn named(element: Element) -> &'static str {
    match element {
        Element::File => "a file",
        Element::Message => "a message",
        Element::Field => "a field",
        Element::Oneof => "a oneof",
        Element::Enum => "an enum",
        Element::EnumValue => "a value of an enum",
        Element::Service => "a service",
        Element::Method => "a method",
    }
}

/// The values of an option, in words.
fn values_of(kind: ValueKind) -> &'static str {
    match kind {
        ValueKind::Text => "a string",
        ValueKind::Bool => "`true` or `false`",
        ValueKind::OptimizeMode => "`SPEED`, `CODE_SIZE` or `LITE_RUNTIME`",
        ValueKind::JsType => "`JS_NORMAL`, `JS_STRING` or `JS_NUMBER`",
        ValueKind::IdempotencyLevel => "`IDEMPOTENCY_UNKNOWN`, `NO_SIDE_EFFECTS` or `IDEMPOTENT`",
    }
}

/// The first token of an option's value.
fn value_place(value: &Constant) -> Place {
    match value {
        Constant::Name(name) => name.first.span.start,
        Constant::Number(number) => match number.sign {
            Some(Sign::Minus(sign) | Sign::Plus(sign)) => sign.start,
            None => number.number.span.start,
        },
        Constant::String(text) => text.first.span.start,
    }
}

/// What is said of an option that an element has not: a similar one.
fn unknown_words(alloc: Global, element: Element, name: &str) -> Result<String, AllocError> {
    let what = named(element);
    let mut nearest = Nearest::new();
    for rule in rules(element) {
        nearest.offer(alloc, name, rule.word, rule.word)?;
    }
    match nearest.name {
        Some(near) => format!(in alloc;
            "{what} has no option `{name}`; a similar name is `{near}`"
        ),
        None => format!(in alloc; "{what} has no option `{name}`"),
    }
}

/// The option of a word that an element may have.
fn rule_named(element: Element, name: &str) -> Option<&'static OptionRule> {
    rules(element).iter().find(|rule| rule.word == name)
}

/// Says what may be wrong with one setting of an element, after those that came before it.
fn put_setting<'s>(
    rules: &mut Rules<'s>,
    seen: &mut BTreeMap<String, Place>,
    element: Element,
    setting: &Setting<'s>,
) -> Result<(), AllocError> {
    let alloc = rules.alloc;
    let text = dotted(alloc, &setting.name)?;
    let name = text.as_str();
    let place = setting.name.first.span.start;
    match rule_named(element, name) {
        Some(rule) => {
            let about = format!(in alloc; "`{name}` takes {}", values_of(rule.kind))?;
            rules.put(
                value_place(&setting.value),
                Kind::BadOptionValue,
                about,
                None,
            )?;
        }
        None => {
            let about = unknown_words(alloc, element, name)?;
            rules.put(place, Kind::UnknownOption, about, None)?;
        }
    }
    let key = String::from_str(alloc, name)?;
    match seen.get(&key).copied() {
        Some(first) => {
            let about = format!(in alloc; "`{name}` is set already")?;
            rules.put(place, Kind::OptionTwice, about, Some(first))
        }
        None => {
            seen.insert(key, place)?;
            Ok(())
        }
    }
}

/// Says what the settings that the statements of an element make break.
pub(crate) fn put_settings<'s, I: Item<'s>>(
    rules: &mut Rules<'s>,
    element: Element,
    items: &[I],
) -> Result<(), AllocError> {
    let mut seen = BTreeMap::new(rules.alloc);
    for item in items {
        if let Some(setting) = item.setting() {
            put_setting(rules, &mut seen, element, setting)?;
        }
    }
    Ok(())
}

/// Says what the settings of a field or of an enum value break.
pub(crate) fn put_bracketed<'s>(
    rules: &mut Rules<'s>,
    element: Element,
    options: &Option<Boxed<Options<'s>>>,
) -> Result<(), AllocError> {
    let Some(options) = options else {
        return Ok(());
    };
    let mut seen = BTreeMap::new(rules.alloc);
    for setting in options.get().settings.iter() {
        put_setting(rules, &mut seen, element, setting)?;
    }
    Ok(())
}
