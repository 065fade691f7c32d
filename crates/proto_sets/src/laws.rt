//! Laws over the definitions.

ghost use Rattle.std.specs.Prelude.{◌≡◌, List, ℕ};
ghost use Rattle.proto_base.specs.declared.limits.Limits.{Limits};
ghost use Rattle.proto_compilation.specs.Alike.{AreAlike};
ghost use Rattle.proto_compilation.specs.Compilation.{Compilation};
ghost use Rattle.proto_compilation.specs.Sound.{IsSound};
ghost use Rattle.proto_sets.specs.SetFaults.{Fault, IsFault, IsLeastFault};
ghost use Rattle.proto_sets.specs.Sets.{Contents, IsOfSet, SaysFile};

/// The bytes of a file's descriptor say one thing: it has one name, one package and one list of imports, and declares one list
/// of elements.
pub fn descriptors_say_one_thing()
    ensures { (depth : ℕ) (text : List ℕ) (contents other : Contents)
        → SaysFile depth text contents → SaysFile depth text other → contents ≡ other }
{}

/// A set has one answer: compilations that no question tells apart, or one first fault.
pub fn reading_is_unique()
    ensures one_compilation { (limits : Limits) (set : List ℕ) (c d : Compilation)
        → IsOfSet limits set c → IsOfSet limits set d → AreAlike c d }
    ensures no_fault { (limits : Limits) (set : List ℕ) (c : Compilation) (x : Fault)
        → IsOfSet limits set c → IsFault limits set x → ⊥ }
    ensures one_fault { (limits : Limits) (set : List ℕ) (x y : Fault)
        → IsLeastFault limits set x → IsLeastFault limits set y → x ≡ y }
{}

/// What a set is read as is sound, so that all that is said of sound compilations is said of it.
pub fn read_sets_are_sound()
    ensures { (limits : Limits) (set : List ℕ) (c : Compilation) → IsOfSet limits set c → IsSound c }
{}
