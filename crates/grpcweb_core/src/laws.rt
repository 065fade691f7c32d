//! Laws over the definitions.

ghost use Rattle.std.specs.Prelude.{◌≡◌};
ghost use Rattle.first_reach.specs.declared.mode.Mode.{Mode};
ghost use Rattle.grpcweb_core.specs.Http.{AnswerOverHttp, IsAnswerOverHttp, RequestOverHttp};
ghost use Rattle.proto_compilation.specs.Alike.{AreAlike};
ghost use Rattle.proto_compilation.specs.Compilation.{Compilation};
ghost use Rattle.proto_compilation.specs.Sound.{IsSound};

/// A request over HTTP has one answer over compilations that no question tells apart.
pub fn answers_are_unique()
    ensures { (c d : Compilation) (mode : Mode) (request : RequestOverHttp) (a b : AnswerOverHttp) → IsSound c
        → AreAlike c d → IsAnswerOverHttp mode c request a → IsAnswerOverHttp mode d request b → a ≡ b }
{}
