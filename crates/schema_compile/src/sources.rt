//! Read texts as the compiler takes them.

ghost use Rattle.std.specs.Prelude.{IfOk};
ghost use Rattle.schema_compile.specs.Sources.{AreSourcesOf};

use proto_compile::Source;
use source_folder::NamedText;
use std::alloc::{AllocError, Global};

/// The sources that are read texts.
pub fn sources_of<'s>(alloc: Global, texts: &'s [NamedText]) -> Result<Vec<Source<'s>>, AllocError>
    ensures { IfOk result (λ sources. AreSourcesOf texts.now sources.items) }
{
    let mut sources = Vec::with_capacity(alloc, texts.len())?;
    for text in texts {
        sources.push(Source {
            name: text.name.as_str(),
            text: text.text.as_slice(),
        })?;
    }
    Ok(sources)
}
