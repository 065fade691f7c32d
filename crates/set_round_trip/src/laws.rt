//! Laws over the definitions.

ghost use Rattle.std.specs.Prelude.{◌↔◌, ◌<◌, ◌≤◌, ◌^◌, All, List, length, ℕ};
ghost use Rattle.first_reach.specs.declared.mode.Mode.{Mode};
ghost use Rattle.proto_base.specs.declared.limits.Limits.{Limits};
ghost use Rattle.proto_compilation.specs.Compilation.{Compilation, set_of};
ghost use Rattle.proto_compilation.specs.Sound.{IsSound};
ghost use Rattle.proto_compile.specs.Compiled.{IsCompiled};
ghost use Rattle.proto_compile.specs.declared.source.Source.{Source};
ghost use Rattle.proto_desc.specs.declared.file.FileDesc.{FileDesc};
ghost use Rattle.proto_file.specs.Local.{Describes};
ghost use Rattle.proto_sets.specs.Sets.{Contents, IsOfSet, SaysFile, depth_of};
ghost use Rattle.reflect_core.specs.Response.{IsResponse};
ghost use Rattle.set_round_trip.specs.ButPlaces.{AreAlikeButPlaces};
ghost use Rattle.set_round_trip.specs.Fits.{FileFits, IsName};
ghost use Rattle.set_round_trip.specs.Readable.{AreNoLower, HasName};
ghost use Rattle.wire_bytes.specs.Descriptor.{file_desc_bytes};

/// What the set of sources is read as has their files, set order, reach, names, services, extensions and limits. The
/// places of names may differ, since descriptors have none.
pub fn written_sets_are_read_alike()
    ensures { (limits : Limits) (sources : List Source) (c d : Compilation)
        → IsCompiled limits sources c → IsOfSet limits (set_of c.files c.links) d
        → AreAlikeButPlaces c d }
{}

/// The descriptor of a file says something, where it fits.
pub fn descriptors_are_read()
    ensures { (depth : ℕ) (desc : FileDesc) → FileFits depth desc
        → length (file_desc_bytes desc) < 2 ^ 64
        → (contents : Contents) × SaysFile depth (file_desc_bytes desc) contents }
{}

/// What a source with a name describes fits, and what it is with its types resolved: its elements stand within one
/// another at most two deeper than messages may.
pub fn descriptors_fit()
    ensures described { (limits : Limits) (name text : List ℕ) (desc : FileDesc)
        → Describes limits name text desc → IsName name
        → (depth : ℕ) → depth_of limits ≤ depth → FileFits depth desc }
    ensures resolved { (limits : Limits) (sources : List Source) (c : Compilation)
        (is : IsCompiled limits sources c) → All HasName sources
        → (depth : ℕ) → depth_of limits ≤ depth → All (FileFits depth) is.written.descs }
{}

/// The set of sources is read exactly where each of them has a name, by a reader whose limits are no lower than those
/// of the compiler.
pub fn written_sets_are_read()
    ensures read { (limits reader : Limits) (sources : List Source) (c : Compilation)
        → IsCompiled limits sources c → AreNoLower reader limits → All HasName sources
        → (d : Compilation) × IsOfSet reader (set_of c.files c.links) d }
    ensures named { (limits reader : Limits) (sources : List Source) (c d : Compilation)
        → IsCompiled limits sources c → IsOfSet reader (set_of c.files c.links) d
        → All HasName sources }
{}

/// No answer asks for places. So a body has the same responses over the set of sources as over the sources.
pub fn answers_stay()
    ensures alike { (c d : Compilation) → IsSound c → IsSound d → AreAlikeButPlaces c d
        → (mode : Mode) (body bytes : List ℕ)
        → IsResponse mode c body bytes ↔ IsResponse mode d body bytes }
    ensures sets { (mode : Mode) (limits : Limits) (sources : List Source) (c d : Compilation)
        → IsCompiled limits sources c → IsOfSet limits (set_of c.files c.links) d
        → (body bytes : List ℕ) → IsResponse mode c body bytes ↔ IsResponse mode d body bytes }
{}
