//! Laws over the definitions.

ghost use Rattle.std.specs.Prelude.{◌≡◌, ℕ, ◌<◌, List, length, IsTrue};
ghost use Rattle.proto_desc.specs.declared.file.FileDesc.{FileDesc};
ghost use Rattle.proto_links.specs.Bad.{IsFirstBad};
ghost use Rattle.proto_links.specs.Linked.{AreLinked, Linked, sees};
ghost use Rattle.proto_base.specs.declared.kind.Kind.{Kind};
ghost use Rattle.proto_base.specs.declared.place.Place.{Place};

/// Files have one set order, and see the same files, however they are linked; and they have one first bad import.
pub fn links_are_unique()
    ensures order { (files : List FileDesc) (links others : Linked) → AreLinked files links
        → AreLinked files others → links.set_order ≡ others.set_order }
    ensures sees { (files : List FileDesc) (links others : Linked) (a b : ℕ) → AreLinked files links
        → AreLinked files others → a < length files → b < length files → IsTrue (sees links a b)
        → IsTrue (sees others a b) }
    ensures bad { (files : List FileDesc) (a b : ℕ) (place other : Place) (kind what : Kind)
        → IsFirstBad files a place kind → IsFirstBad files b other what
        → (a ≡ b) × (place ≡ other) × (kind ≡ what) }
{}
