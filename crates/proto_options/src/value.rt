//! What a name stands for as the value of an option.

ghost use Rattle.std.specs.Prelude.{◌≡◌};
ghost use Rattle.proto_options.specs.Options.{number_of};

use proto_desc::rules::ValueKind;
use proto_tree::FullName;
use proto_tree::text::simple_name;

/// The number that a name stands for as the value of an option that takes this kind, if it is one of its choices.
pub fn number_of(kind: ValueKind, name: &FullName) -> Option<u64>
    ensures { result ≡ number_of kind name.now }
{
    match simple_name(name) {
        Some(word) => kind.choice_number(word),
        None => None,
    }
}
