//! Options of an element (`descriptor.proto`, `FileOptions` to `MethodOptions`): of each option that the element may have,
//! the first setting counts, and one whose value is of another kind sets nothing.

ghost use Rattle.std.specs.Prelude.{◌≡◌, ◌++◌, [], IfOk, OnOk, flat_map, Some};
ghost use Rattle.std.specs.Option.{option_copied, option_to_list};
ghost use Rattle.proto_options.specs.Options.{bracketed, value_of};
ghost use Rattle.proto_lower.specs.Options.{option_by, options_of, json_name_by};

use proto_base::boxed::Boxed;
use proto_base::row::Row;
use proto_desc::json_name::JsonName;
use proto_desc::options::{OptionDescriptor, OptionValue};
use proto_desc::rules::{Element, JSON_NAME, OptionRule, ValueKind, rules};
use proto_options::{Item, first_bracketed, first_setting, number_of};
use proto_tree::text::joined;
use proto_tree::{Constant, Options, Setting};
use std::alloc::{AllocError, Global};

fn value_of<'s>(
    alloc: Global,
    kind: ValueKind,
    value: &Constant<'s>,
) -> Result<Option<OptionValue<'s>>, AllocError>
    ensures { IfOk result (λ found. found ≡ value_of kind value.now) }
{
    match value {
        Constant::String(text) => match kind {
            ValueKind::Text => Ok(Some(OptionValue::Text(joined(alloc, text)?))),
            _ => Ok(None),
        },
        Constant::Name(name) => match number_of(kind, name) {
            Some(number) => Ok(Some(OptionValue::Number(number))),
            None => Ok(None),
        },
        Constant::Number(_) => Ok(None),
    }
}

/// Adds the option of this number that a setting makes, if its value is of this kind.
fn put_set<'s>(
    alloc: Global,
    out: &mut Vec<OptionDescriptor<'s>>,
    number: u32,
    kind: ValueKind,
    setting: &Setting<'s>,
) -> Result<(), AllocError>
    ensures { OnOk result (out.new.items
        ≡ out.old.items ++ option_to_list (option_by (Some number) kind (Some setting.now))) }
{
    if let Some(value) = value_of(alloc, kind, &setting.value)? {
        out.push(OptionDescriptor {
            number,
            value,
            place: setting.name.first.span.start,
        })?;
    }
    Ok(())
}

/// Adds what a rule's first setting gives.
fn put_option<'s>(
    alloc: Global,
    out: &mut Vec<OptionDescriptor<'s>>,
    rule: &OptionRule,
    setting: Option<&Setting<'s>>,
) -> Result<(), AllocError>
    ensures { OnOk result (out.new.items ≡ out.old.items
        ++ option_to_list (option_by rule.now.number rule.now.kind (option_copied setting.entry))) }
{
    match (rule.number, setting) {
        (Some(number), Some(setting)) => put_set(alloc, out, number, rule.kind, setting),
        _ => Ok(()),
    }
}

/// The JSON name of a field with these options: what `json_name` sets, or else the one that is made of its name.
#[tactic(auto, unfolding(crate::specs::Options::json_name_by))]
pub(crate) fn field_json_name<'s>(
    alloc: Global,
    name: &'s str,
    options: &Option<Boxed<Options<'s>>>,
) -> Result<JsonName<'s>, AllocError>
    ensures { IfOk result (λ json. json ≡ json_name_by (bracketed options.now) name.now) }
{
    if let Some(setting) = first_bracketed(options, JSON_NAME) {
        if let Constant::String(value) = &setting.value {
            return JsonName::given(alloc, joined(alloc, value)?);
        }
    }
    Ok(JsonName::made(name))
}

fn bracketed_count(options: &Option<Boxed<Options>>) -> usize
    ensures { result ≡ 0 → bracketed options.now ≡ [] }
{
    match options {
        Some(options) => options.get().settings.rest.len().saturating_add(1),
        None => 0,
    }
}

/// The options of a field or an enum value.
pub(crate) fn bracketed_options<'s>(
    alloc: Global,
    element: Element,
    options: &Option<Boxed<Options<'s>>>,
) -> Result<Row<OptionDescriptor<'s>>, AllocError>
    ensures { IfOk result (λ set. set ≡ options_of element (bracketed options.now)) }
{
    let count = bracketed_count(options);
    if count == 0 {
        return Ok(Row::new(alloc));
    }
    let rules = rules(element);
    let mut set = Vec::with_capacity(alloc, count.min(rules.len()))?;
    for rule in rules {
        put_option(alloc, &mut set, rule, first_bracketed(options, rule.word))?;
    }
    Ok(Row::from_vec(set))
}

fn setting_count<'s, I: Item<'s>>(items: &[I]) -> usize
    ensures { result ≡ 0 → flat_map I.setting_of items.now ≡ [] }
{
    let mut count = 0usize;
    for item in items {
        if item.setting().is_some() {
            count = count.saturating_add(1);
        }
    }
    count
}

/// The options that the statements of an element set.
pub(crate) fn options_of<'s, I: Item<'s>>(
    alloc: Global,
    element: Element,
    items: &[I],
) -> Result<Row<OptionDescriptor<'s>>, AllocError>
    ensures { IfOk result (λ set. set ≡ options_of element (flat_map I.setting_of items.now)) }
{
    let count = setting_count(items);
    if count == 0 {
        return Ok(Row::new(alloc));
    }
    let rules = rules(element);
    let mut set = Vec::with_capacity(alloc, count.min(rules.len()))?;
    for rule in rules {
        put_option(alloc, &mut set, rule, first_setting(items, rule.word))?;
    }
    Ok(Row::from_vec(set))
}
