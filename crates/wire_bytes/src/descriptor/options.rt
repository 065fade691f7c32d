//! Options (`FileOptions` to `MethodOptions`).

ghost use Rattle.std.specs.Prelude.{◌≡◌, ◌++◌, OnOk, flat_map};
ghost use Rattle.wire_bytes.specs.Descriptor.{option_bytes, settings_field};

use crate::backward::Backward;
use proto_base::row::Row;
use proto_desc::options::{OptionDescriptor, OptionValue};
use std::alloc::AllocError;

fn prepend_setting(out: &mut Backward, option: &OptionDescriptor) -> Result<(), AllocError>
    ensures { OnOk result (out.new ≡ option_bytes option.now ++ out.old) }
{
    match &option.value {
        OptionValue::Text(text) => out.prepend_field(option.number, text),
        OptionValue::Number(number) => out.prepend_number(option.number, *number),
    }
}

/// Writes the settings of an element.
pub(super) fn prepend_settings(
    out: &mut Backward,
    options: &Row<OptionDescriptor>,
) -> Result<(), AllocError>
    ensures { OnOk result (out.new ≡ flat_map option_bytes options.now ++ out.old) }
{
    for option in options.iter().rev() {
        prepend_setting(out, option)?;
    }
    Ok(())
}

/// Writes an element's message of options, unless it is empty.
pub(super) fn prepend_options(
    out: &mut Backward,
    number: u32,
    options: &Row<OptionDescriptor>,
) -> Result<(), AllocError>
    ensures { OnOk result (out.new ≡ settings_field number options.now ++ out.old) }
{
    let end = out.len();
    prepend_settings(out, options)?;
    if out.len() > end {
        out.prepend_head(number, end)?;
    }
    Ok(())
}
