//! Rules on the options of an element (`descriptor.proto`, `FileOptions` to `MethodOptions`).

ghost use Rattle.std.specs.Prelude.{◌≡◌, ◌↔◌, Some, IsTrue, IfOk, OnOk, List, map};
ghost use Rattle.std.specs.Option.{is_some, option_map, option_copied};
ghost use Rattle.proto_desc.specs.Rules.{rule_of};
ghost use Rattle.proto_desc.specs.declared.options.OptionValue.TheVariants.{Number};
ghost use Rattle.proto_desc.specs.declared.rules.ValueKind.TheVariants.{Bool};
ghost use Rattle.proto_options.specs.Options.{is_setting, value_of};
ghost use Rattle.proto_checks.specs.Options.{name_place, value_place, SettingsBreak};
ghost use Rattle.proto_checks.specs.Parts.{choice_of_value};
ghost use Rattle.proto_checks.specs.Judged.{rule_named, setting_fault, judged, judged_name, IsFaultOf, JudgedTwice};
ghost use Rattle.proto_base.specs.Sets.{Each, Gains};
ghost use Rattle.proto_desc.specs.declared.rules.Element.{Element};
ghost use Rattle.proto_tree.specs.declared.option.Setting.{Setting};

use crate::faults::put_found;
use crate::marks::{HasText, MarkedText};
use crate::repeats::put_texts_twice;
use proto_base::text::Text;
use proto_base::{Kind, Place, Spot};
use proto_desc::rules::{Element, OptionRule, ValueKind, rules};
use proto_options::{is_setting, number_of};
use proto_tree::text::dotted;
use proto_tree::{Constant, Setting, Sign};
use std::alloc::{AllocError, Global};

/// The number that a constant stands for, if it is a name.
pub(crate) fn choice_of_value(kind: ValueKind, value: &Constant) -> Option<u64>
    ensures { result ≡ choice_of_value kind value.now }
{
    match value {
        Constant::Name(name) => number_of(kind, name),
        _ => None,
    }
}

/// Whether an option that takes this kind of values takes the constant.
fn is_taken(kind: ValueKind, value: &Constant) -> bool
    ensures { result ≡ is_some (value_of kind value.now) }
{
    match value {
        Constant::String(_) => kind == ValueKind::Text,
        Constant::Name(name) => number_of(kind, name).is_some(),
        Constant::Number(_) => false,
    }
}

/// Whether a constant is `true`.
pub(crate) fn is_true(value: &Constant) -> bool
    ensures { IsTrue result ↔ (value_of Bool value.now ≡ Some (Number 1)) }
{
    choice_of_value(ValueKind::Bool, value) == Some(1)
}

pub(crate) fn name_place(setting: &Setting) -> Place
    ensures { result ≡ name_place setting.now }
{
    setting.name.first.span.start
}

fn value_place(value: &Constant) -> Place
    ensures { result ≡ value_place value.now }
{
    match value {
        Constant::Name(name) => name.first.span.start,
        Constant::String(text) => text.first.span.start,
        Constant::Number(number) => match number.sign {
            Some(Sign::Minus(sign)) => sign.start,
            Some(Sign::Plus(sign)) => sign.start,
            None => number.number.span.start,
        },
    }
}

/// The rule of the setting's name, if the element has an option of this name.
fn rule_named(element: Element, setting: &Setting) -> Option<&'static OptionRule>
    ensures { option_map rule_of (option_copied result) ≡ rule_named element setting.now }
{
    rules(element)
        .iter()
        .find(|rule| is_setting(setting, rule.word))
}

/// What a setting breaks by itself.
#[tactic(auto, unfolding(crate::specs::Judged::setting_fault))]
pub(crate) fn setting_fault(element: Element, setting: &Setting) -> Option<Spot>
    ensures { result ≡ setting_fault element setting.now }
{
    match rule_named(element, setting) {
        None => Some(Spot {
            place: name_place(setting),
            kind: Kind::UnknownOption,
        }),
        Some(rule) if is_taken(rule.kind, &setting.value) => None,
        Some(_) => Some(Spot {
            place: value_place(&setting.value),
            kind: Kind::BadOptionValue,
        }),
    }
}

/// A setting, judged by itself.
#[derive(Drop)]
pub(crate) struct Judged<'s> {
    name: Text<'s>,
    place: Place,
    fault: Option<Spot>,
}

/// A setting of the element, judged by itself.
pub(crate) fn judge<'s>(
    alloc: Global,
    element: Element,
    setting: &Setting<'s>,
) -> Result<Judged<'s>, AllocError>
    ensures { IfOk result (λ made. made ≡ judged element setting.now) }
{
    Ok(Judged {
        name: dotted(alloc, &setting.name)?,
        place: name_place(setting),
        fault: setting_fault(element, setting),
    })
}

impl<'s> HasText for Judged<'s> {
    ghost mark = { judged_name };

    fn marked_text(&self) -> MarkedText<'_> {
        MarkedText {
            text: self.name.as_str(),
            place: self.place,
        }
    }
}

/// Puts the faults that settings have by themselves.
fn put_own_faults(faults: &mut Vec<Spot>, settings: &[Judged]) -> Result<(), AllocError>
    ensures { OnOk result (Gains (Each settings.now IsFaultOf) faults.old.items faults.new.items) }
{
    for setting in settings {
        put_found(faults, setting.fault)?;
    }
    Ok(())
}

/// Puts the settings of options that are set before.
fn put_options_twice(
    alloc: Global,
    faults: &mut Vec<Spot>,
    settings: &[Judged],
) -> Result<(), AllocError>
    ensures { OnOk result (Gains (JudgedTwice settings.now) faults.old.items faults.new.items) }
{
    put_texts_twice(alloc, faults, Kind::OptionTwice, settings)
}

/// Puts the faults of an element's settings.
pub(crate) fn put_setting_faults(
    alloc: Global,
    faults: &mut Vec<Spot>,
    settings: &[Judged],
) -> Result<(), AllocError>
    ensures { (element : Element) (given : List Setting) → settings.now ≡ map (judged element) given
        → OnOk result (Gains (SettingsBreak element given) faults.old.items faults.new.items) }
{
    put_own_faults(faults, settings)?;
    put_options_twice(alloc, faults, settings)
}
