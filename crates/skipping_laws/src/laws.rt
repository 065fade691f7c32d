//! Laws over the definitions.

ghost use Rattle.std.specs.Prelude.{◌≡◌, ℕ, List, Some, map};
ghost use Rattle.proto_base.specs.declared.limits.Limits.{Limits};
ghost use Rattle.proto_compilation.specs.Compilation.{Compilation};
ghost use Rattle.proto_compile.specs.Compiled.{IsCompiled};
ghost use Rattle.proto_compile.specs.declared.source.Source.{Source};
ghost use Rattle.proto_desc.specs.declared.file.FileDesc.{FileDesc};
ghost use Rattle.proto_file.specs.Local.{Describes};
ghost use Rattle.schema_sources.specs.Texts.{AreTextsBy};
ghost use Rattle.skipped_sources.specs.declared.options.CustomOptions.TheVariants.{Skip};
ghost use Rattle.skipping_laws.specs.Listed.{source_bytes};
ghost use Rattle.source_folder.specs.Folder.{NamedBytes, named_bytes};
ghost use Rattle.source_folder.specs.declared.folder.NamedText.{NamedText};
ghost use Rattle.source_skip.specs.Skipped.{skipped};

/// A source that is a file and breaks no rule by itself is not changed where custom options are skipped.
pub fn files_stay()
    ensures { (limits : Limits) (name text : List ℕ) (desc : FileDesc)
        → Describes limits name text desc → skipped text ≡ text }
{}

/// Where a skipped text is a file and breaks no rule by itself, skipping it again changes nothing.
pub fn skipped_again_stays()
    ensures { (limits : Limits) (name text : List ℕ) (desc : FileDesc)
        → Describes limits name (skipped text) desc → skipped (skipped text) ≡ skipped text }
{}

/// Sources that are compiled are the texts that are taken where custom options are skipped. Each text stays, and no
/// import is lost.
pub fn sources_stay()
    ensures { (limits : Limits) (listed : List NamedBytes) (sources : List Source) (c : Compilation)
        → map source_bytes sources ≡ listed → IsCompiled limits sources c
        → (texts : List NamedText) → AreTextsBy limits Skip (Some listed) texts → map named_bytes texts ≡ listed }
{}
