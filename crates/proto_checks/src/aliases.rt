//! Whether an enum lets its values share a number (language guide, "Enum Value Aliases").

ghost use Rattle.std.specs.Prelude.{◌↔◌, IsTrue, flat_map};
ghost use Rattle.proto_options.specs.Options.{enum_setting, first_setting};
ghost use Rattle.proto_desc.specs.Rules.{allow_alias};
ghost use Rattle.proto_checks.specs.Numbers.{IsAliasing};

use crate::options::is_true;
use proto_desc::rules::ALLOW_ALIAS;
use proto_options::first_setting;
use proto_tree::EnumItem;

/// Whether the statements of an enum set `allow_alias = true`.
pub(crate) fn is_aliasing(items: &[EnumItem]) -> bool
    ensures { IsTrue result ↔ IsAliasing
        (first_setting allow_alias (flat_map enum_setting items.now)) }
{
    match first_setting(items, ALLOW_ALIAS) {
        Some(setting) => is_true(&setting.value),
        None => false,
    }
}
