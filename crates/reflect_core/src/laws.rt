//! Laws over the definitions.

ghost use Rattle.std.specs.Prelude.{◌≡◌, ℕ, ◌<◌, ◌^◌, List, All, length};
ghost use Rattle.first_reach.specs.declared.mode.Mode.{Mode};
ghost use Rattle.proto_compilation.specs.Alike.{AreAlike};
ghost use Rattle.proto_compilation.specs.Compilation.{Compilation};
ghost use Rattle.proto_compilation.specs.Sound.{IsSound};
ghost use Rattle.reflect_core.specs.Response.{IsResponse, replies};

/// A body has one response over compilations that no question tells apart.
pub fn responses_are_unique()
    ensures { (c d : Compilation) (mode : Mode) (body a b : List ℕ) → IsSound c → AreAlike c d
        → IsResponse mode c body a → IsResponse mode d body b → a ≡ b }
{}

/// Every reply to the requests of a body has fewer than 2^32 bytes, as many as the head of a frame can tell.
pub fn replies_are_short()
    ensures { (c : Compilation) (mode : Mode) (body bytes : List ℕ) → IsSound c
        → (response : IsResponse mode c body bytes)
        → All (λ reply. length reply < 2 ^ 32) (replies mode c response.asked) }
{}
