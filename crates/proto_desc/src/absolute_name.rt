//! Full names behind a leading dot (`FieldDescriptorProto.type_name`).

ghost use Rattle.std.specs.Prelude.{◌≡◌, ◌∷◌, ◌++◌, string_bytes};
ghost use Rattle.std.specs.Arc.{arc_str_bytes};

use std::marker::Model;
use std::sync::ArcStr;

/// The full name of a type behind a leading dot. What stands before its last part is shared with other names: a file
/// names types in few scopes, and a scope may be long. Contracts see the bytes of the name.
#[derive(Drop)]
pub struct AbsoluteName {
    scope: ArcStr,
    name: String,
}

impl Model for AbsoluteName {
    ghost use Rattle.std.specs.Prelude.{◌∷◌, ◌++◌, List, ℕ, string_bytes};
    ghost use Rattle.std.specs.Arc.{arc_str_bytes};

    ghost Value = { List ℕ };

    ghost view = { λ full. arc_str_bytes full.scope ++ 46 ∷ string_bytes full.name };
}

impl AbsoluteName {
    /// The name in a scope, which is itself a full name behind a leading dot, or is empty.
    pub fn new(scope: ArcStr, name: String) -> AbsoluteName
        ensures { result ≡ arc_str_bytes scope ++ 46 ∷ string_bytes name }
    {
        AbsoluteName { scope, name }
    }

    /// The scope, and the name there.
    pub fn parts(&self) -> (&str, &str)
        ensures { self.now ≡ result.0.now ++ 46 ∷ result.1.now }
    {
        (self.scope.as_str(), self.name.as_str())
    }
}
