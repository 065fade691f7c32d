//! Laws over the definitions.

ghost use Rattle.std.specs.Prelude.{◌≡◌, ◌≤◌, ℕ, List, length};
ghost use Rattle.proto_file.specs.Local.{Describes, IsLocalFault, IsOwnFault};
ghost use Rattle.proto_file.specs.Places.{AllWithin};
ghost use Rattle.proto_base.specs.Limits.{limit_of};
ghost use Rattle.proto_base.specs.declared.file_fault.FileFault.{FileFault};
ghost use Rattle.proto_base.specs.declared.limits.Limit.TheVariants as limit;
ghost use Rattle.proto_base.specs.declared.limits.Limits.{Limits};
ghost use Rattle.proto_desc.specs.Places.{places_of};
ghost use Rattle.proto_desc.specs.declared.file.FileDesc.{FileDesc};

/// A file describes one thing, or it has faults by itself, of which one is the first, and not both.
pub fn file_is_one_thing()
    ensures one_descriptor { (limits : Limits) (name text : List ℕ) (f g : FileDesc)
        → Describes limits name text f → Describes limits name text g → f ≡ g }
    ensures no_fault { (limits : Limits) (name text : List ℕ) (desc : FileDesc) (f : FileFault)
        → Describes limits name text desc → IsOwnFault limits name text f → ⊥ }
    ensures one_fault { (limits : Limits) (name text : List ℕ) (f g : FileFault)
        → IsLocalFault limits name text f → IsLocalFault limits name text g → f ≡ g }
{}

/// The place of each fault that a file has by itself, and each place of what it describes, lies within its text; that of a
/// fault lies within the limit of texts too.
pub fn places_lie_within()
    ensures of_fault { (limits : Limits) (name text : List ℕ) (f : FileFault)
        → IsOwnFault limits name text f → (f.spot.place.offset ≤ length text)
        × (f.spot.place.offset ≤ limit_of limits limit.FileBytes) }
    ensures of_descriptor { (limits : Limits) (name text : List ℕ) (desc : FileDesc)
        → Describes limits name text desc → AllWithin (length text) (places_of desc) }
{}
