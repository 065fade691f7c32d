//! What is kept where imports are dropped.

ghost use Rattle.std.specs.Prelude.{◌≡◌, ℕ, List, length};
ghost use Rattle.proto_base.specs.declared.limits.Limits.{Limits};
ghost use Rattle.skipped_sources.specs.Lost.{IsWithoutLost};

/// A text without lost imports is as long as before.
pub fn lost_imports_keep_lengths()
    ensures { (limits : Limits) (names : List (List ℕ)) (text new : List ℕ)
        → IsWithoutLost limits names text new → length new ≡ length text }
{}
