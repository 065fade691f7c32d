//! The settings that the statements of an element make, and the first one of an option.

ghost use Rattle.std.specs.Prelude.{◌≡◌, flat_map};
ghost use Rattle.std.specs.Option.{option_copied, option_to_list};
ghost use Rattle.proto_options.specs.Options.{is_setting, first_setting, bracketed, file_setting, message_setting, oneof_setting, enum_setting, service_setting, rpc_setting};

use proto_base::boxed::Boxed;
use proto_tree::text::simple_name;
use proto_tree::{
    EnumItem, MessageItem, OneofItem, Options, RpcItem, ServiceItem, Setting, Statement,
};

/// A statement of an element, which may be an option.
pub trait Item<'s> {
    ghost use Rattle.std.specs.Prelude.{List};
    ghost use Rattle.proto_tree.specs.declared.option.Setting.{Setting};

    /// The settings that it makes: one, or none.
    ghost setting_of: { Self → List Setting };

    /// What it sets, where it is an option.
    fn setting(&self) -> Option<&Setting<'s>>
        ensures { setting_of self.now ≡ option_to_list (option_copied result) };
}

impl<'s> Item<'s> for Statement<'s> {
    ghost setting_of = { file_setting };

    fn setting(&self) -> Option<&Setting<'s>> {
        match self {
            Statement::Option(option) => Some(&option.get().setting),
            _ => None,
        }
    }
}

impl<'s> Item<'s> for MessageItem<'s> {
    ghost setting_of = { message_setting };

    fn setting(&self) -> Option<&Setting<'s>> {
        match self {
            MessageItem::Option(option) => Some(&option.get().setting),
            _ => None,
        }
    }
}

impl<'s> Item<'s> for OneofItem<'s> {
    ghost setting_of = { oneof_setting };

    fn setting(&self) -> Option<&Setting<'s>> {
        match self {
            OneofItem::Option(option) => Some(&option.get().setting),
            _ => None,
        }
    }
}

impl<'s> Item<'s> for EnumItem<'s> {
    ghost setting_of = { enum_setting };

    fn setting(&self) -> Option<&Setting<'s>> {
        match self {
            EnumItem::Option(option) => Some(&option.get().setting),
            _ => None,
        }
    }
}

impl<'s> Item<'s> for ServiceItem<'s> {
    ghost setting_of = { service_setting };

    fn setting(&self) -> Option<&Setting<'s>> {
        match self {
            ServiceItem::Option(option) => Some(&option.get().setting),
            _ => None,
        }
    }
}

impl<'s> Item<'s> for RpcItem<'s> {
    ghost setting_of = { rpc_setting };

    fn setting(&self) -> Option<&Setting<'s>> {
        match self {
            RpcItem::Option(option) => Some(&option.get().setting),
            _ => None,
        }
    }
}

/// Whether a setting is of the option of this word; a name with dots is of none.
pub fn is_setting(setting: &Setting, word: &str) -> bool
    ensures { result ≡ is_setting word.now setting.now }
{
    match simple_name(&setting.name) {
        Some(name) => name == word,
        None => false,
    }
}

/// The first among the options of a field or of an enum value.
pub fn first_bracketed<'t, 's>(
    options: &'t Option<Boxed<Options<'s>>>,
    word: &str,
) -> Option<&'t Setting<'s>>
    ensures { option_copied result ≡ first_setting word.now (bracketed options.now) }
{
    let Some(options) = options else {
        return None;
    };
    for listed in options.get().settings.iter() {
        if is_setting(listed, word) {
            return Some(listed);
        }
    }
    None
}

/// The first among these statements.
pub fn first_setting<'t, 's, I: Item<'s>>(items: &'t [I], word: &str) -> Option<&'t Setting<'s>>
    ensures { option_copied result ≡ first_setting word.now (flat_map I.setting_of items.now) }
{
    for item in items {
        if let Some(setting) = item.setting() {
            if is_setting(setting, word) {
                return Some(setting);
            }
        }
    }
    None
}
