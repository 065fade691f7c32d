//! Laws over the definitions.

ghost use Rattle.std.specs.Prelude.{◌≡◌, ℕ, List};
ghost use Rattle.first_reach.specs.declared.mode.Mode.{Mode};
ghost use Rattle.proto_base.specs.declared.limits.Limits.{Limits};
ghost use Rattle.proto_compile.specs.declared.source.Source.{Source};
ghost use Rattle.schema_headline.specs.Headline.{IsResponseOf, IsSetOf};

/// Sources have one set, and a body over them one response, however they are compiled.
pub fn headline_is_unique()
    ensures set { (limits : Limits) (sources : List Source) (a b : List ℕ)
        → IsSetOf limits sources a → IsSetOf limits sources b → a ≡ b }
    ensures response { (mode : Mode) (limits : Limits) (sources : List Source) (body a b : List ℕ)
        → IsResponseOf mode limits sources body a → IsResponseOf mode limits sources body b → a ≡ b }
{}
