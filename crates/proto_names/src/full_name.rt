//! Full names: names in scopes.

ghost use Rattle.std.specs.Prelude.{◌≡◌, IfOk, string_bytes};
ghost use Rattle.proto_desc.specs.DeclaredNames.{scoped};

use std::alloc::{AllocError, Global};

/// A name in a scope; the scope of what stands in no package is empty.
pub fn name_in(alloc: Global, scope: &str, name: &str) -> Result<String, AllocError>
    ensures { IfOk result (λ full. string_bytes full ≡ scoped scope.now name.now) }
{
    let room = scope.len().saturating_add(name.len()).saturating_add(1);
    let mut full = String::with_capacity(alloc, room)?;
    if !scope.is_empty() {
        full.push_str(scope)?;
        full.push_str(".")?;
    }
    full.push_str(name)?;
    Ok(full)
}
