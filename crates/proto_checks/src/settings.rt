//! The settings of an element, in source order, each judged by itself, and their faults.

ghost use Rattle.std.specs.Prelude.{◌≡◌, ◌∷◌, ◌++◌, IfOk, OnOk, [], map, flat_map};
ghost use Rattle.proto_options.specs.Options.{bracketed};
ghost use Rattle.proto_tree.specs.Lists.{separated};
ghost use Rattle.proto_base.specs.Sets.{Gains};
ghost use Rattle.proto_checks.specs.Judged.{judged};
ghost use Rattle.proto_checks.specs.Options.{SettingsBreak};

use crate::faults::put_found;
use crate::options::{Judged, judge, put_setting_faults, setting_fault};
use proto_base::Spot;
use proto_base::boxed::Boxed;
use proto_desc::rules::Element;
use proto_options::Item;
use proto_tree::{Options, Setting};
use std::alloc::{AllocError, Global};

fn put_judged<'s>(
    alloc: Global,
    settings: &mut Vec<Judged<'s>>,
    element: Element,
    setting: &Setting<'s>,
) -> Result<(), AllocError>
    ensures { OnOk result (settings.new.items
        ≡ settings.old.items ++ judged element setting.now ∷ []) }
{
    settings.push(judge(alloc, element, setting)?)?;
    Ok(())
}

/// Those that the statements of an element make.
fn settings_of<'s, I: Item<'s>>(
    alloc: Global,
    element: Element,
    items: &[I],
) -> Result<Vec<Judged<'s>>, AllocError>
    ensures { IfOk result (λ settings. settings.items
        ≡ map (judged element) (flat_map I.setting_of items.now)) }
{
    let mut settings = Vec::new(alloc);
    for item in items {
        if let Some(setting) = item.setting() {
            put_judged(alloc, &mut settings, element, setting)?;
        }
    }
    Ok(settings)
}

/// Puts the faults of the settings that the statements of an element make.
pub(crate) fn put_statement_setting_faults<'s, I: Item<'s>>(
    alloc: Global,
    faults: &mut Vec<Spot>,
    element: Element,
    items: &[I],
) -> Result<(), AllocError>
    ensures { OnOk result (Gains (SettingsBreak element (flat_map I.setting_of items.now))
        faults.old.items faults.new.items) }
{
    let settings = settings_of(alloc, element, items)?;
    put_setting_faults(alloc, faults, &settings)
}

fn put_bracketed<'s>(
    alloc: Global,
    settings: &mut Vec<Judged<'s>>,
    element: Element,
    options: &Options<'s>,
) -> Result<(), AllocError>
    ensures { OnOk result (settings.new.items
        ≡ settings.old.items ++ map (judged element) (separated options.now.settings)) }
{
    for setting in options.settings.iter() {
        put_judged(alloc, settings, element, setting)?;
    }
    Ok(())
}

/// Puts the faults of the settings of a field or of an enum value.
pub(crate) fn put_bracketed_setting_faults(
    alloc: Global,
    faults: &mut Vec<Spot>,
    element: Element,
    options: &Option<Boxed<Options>>,
) -> Result<(), AllocError>
    ensures { OnOk result (Gains (SettingsBreak element (bracketed options.now))
        faults.old.items faults.new.items) }
{
    let Some(options) = options else {
        return Ok(());
    };
    let listed = options.get();
    // Most stand alone, and so set nothing twice.
    if listed.settings.rest.as_slice().is_empty() {
        return put_found(faults, setting_fault(element, &listed.settings.first));
    }
    let mut settings = Vec::new(alloc);
    put_bracketed(alloc, &mut settings, element, listed)?;
    put_setting_faults(alloc, faults, &settings)
}
