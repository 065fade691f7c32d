//! Laws over the definitions.

ghost use Rattle.std.specs.Prelude.{◌≡◌, List};
ghost use Rattle.proto_compilation.specs.Alike.{AreAlike};
ghost use Rattle.proto_compilation.specs.Compilation.{Compilation};
ghost use Rattle.proto_compilation.specs.Sound.{IsSound};
ghost use Rattle.proto_compile.specs.Compiled.{IsCompiled};
ghost use Rattle.proto_compile.specs.FaultSet.{IsFault, IsLeastFault, SourceFault};
ghost use Rattle.proto_compile.specs.declared.source.Source.{Source};
ghost use Rattle.proto_base.specs.declared.limits.Limits.{Limits};

/// Sources have one answer: compilations that no question tells apart, or one first fault.
pub fn compiling_is_unique()
    ensures one_compilation { (limits : Limits) (sources : List Source) (c d : Compilation)
        → IsCompiled limits sources c → IsCompiled limits sources d → AreAlike c d }
    ensures no_fault { (limits : Limits) (sources : List Source) (c : Compilation) (x : SourceFault)
        → IsCompiled limits sources c → IsFault limits sources x → ⊥ }
    ensures one_fault { (limits : Limits) (sources : List Source) (x y : SourceFault)
        → IsLeastFault limits sources x → IsLeastFault limits sources y → x ≡ y }
{}

/// What sources are compiled to is sound, so that all that is said of sound compilations is said of it.
pub fn compilations_are_sound()
    ensures { (limits : Limits) (sources : List Source) (c : Compilation)
        → IsCompiled limits sources c → IsSound c }
{}
