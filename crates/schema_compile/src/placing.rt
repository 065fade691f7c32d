//! Where a fault stands, as users see it.

ghost use Rattle.std.specs.Prelude.{◌≡◌, ◌<◌, ◌≤◌, ◌-◌, ◌^◌, Contains, IfSome, length, option_map, string_bytes};
ghost use Rattle.proto_compile.specs.Sources.{name_of, text_of};
ghost use Rattle.proto_compile.specs.declared.source.Source.{Source};
ghost use Rattle.schema_compile.specs.Placed.{located, source_named};

use proto_base::{Fault, line_column};
use proto_compile::Source;
use schema_failure::Failure;

/// The first of the sources that has a name.
pub fn source_named<'a, 's>(sources: &'a [Source<'s>], name: &str) -> Option<&'a Source<'s>>
    ensures first { option_map (λ source. source.now) result ≡ source_named sources.now name.now }
    ensures listed { IfSome result (λ source. Contains sources.now source.now × (name_of source.now ≡ name.now)) }
{
    sources.iter().find(|source| source.name == name)
}

/// A fault with its line and column in the text of its file. A fault of the list of sources has no file, and stands at 1, 1.
pub fn locate(fault: Fault, sources: &[Source]) -> Failure
    requires within { (source : Source) → Contains sources.now source
        → name_of source ≡ string_bytes fault.file → fault.place.offset ≤ length (text_of source) }
    requires short { fault.place.offset < 2 ^ 32 - 1 }
    ensures { result ≡ located sources.now fault }
{
    let (line, column) = match source_named(sources, fault.file.as_str()) {
        Some(source) => line_column(source.text, fault.place),
        None => (1, 1),
    };
    Failure::Source {
        file: fault.file,
        line,
        column,
        kind: fault.kind,
    }
}
