//! The names that were looked up last in a scope, with what they mean there.

ghost use Rattle.std.specs.Prelude.{◌≡◌, OnOk, bytes_eq, find, option_map};
ghost use Rattle.proto_types.specs.Recalling.{Remembers};

use proto_names::FoundType;
use std::alloc::AllocError;

/// A name as it is spelled, and the type that it means, if any.
#[derive(Clone, Copy)]
pub(crate) struct Recalled<'d> {
    pub(crate) spelled: &'d str,
    pub(crate) found: Option<FoundType<'d>>,
}

/// How many names are recalled at a time. A scope seldom has more, and so few are compared one by one.
const MOST: usize = 16;

/// A name among those that are recalled.
pub(crate) fn recalled_as<'r, 'd>(
    recalled: &'r [Recalled<'d>],
    spelled: &str,
) -> Option<&'r Recalled<'d>>
    ensures { option_map (λ one. one.now) result
        ≡ find (λ one. bytes_eq one.spelled.now spelled.now) recalled.now }
{
    recalled.iter().find(|one| one.spelled == spelled)
}

/// Adds a name to those that are recalled. It takes the place of all of them where these are as many as may be.
pub(crate) fn remember<'d>(
    recalled: &mut Vec<Recalled<'d>>,
    one: Recalled<'d>,
) -> Result<(), AllocError>
    ensures { OnOk result (Remembers one.entry recalled.old.items recalled.new.items) }
{
    if recalled.len() >= MOST {
        recalled.clear();
    }
    recalled.push(one)?;
    Ok(())
}
