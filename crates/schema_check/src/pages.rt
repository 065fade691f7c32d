//! Files in which faults are told: each is opened once for all of its faults.

ghost use Rattle.std.specs.Prelude.{◌≡◌, IfOk, List, string_bytes};
ghost use Rattle.proto_compile.specs.declared.source.Source.{Source};
ghost use Rattle.schema_check.specs.Open.{FindsSources, HasTokens, IsOpen, IsPageOf};

use fault_report::{Form, Lines, tokens_in};
use proto_base::{Fault, Limits};
use proto_compile::Source;
use proto_tokens::Tokens;
use schema_sources::Places;
use std::alloc::{AllocError, Global};
use std::collections::HashMap;

/// Sources by their names.
pub(crate) type Named<'s> = HashMap<&'s str, Source<'s>>;

/// Sources by their names: of those of one name the first.
pub(crate) fn by_name<'s>(alloc: Global, sources: &[Source<'s>]) -> Result<Named<'s>, AllocError>
    ensures { IfOk result (FindsSources sources.now) }
{
    let mut named = HashMap::new(alloc);
    for source in sources {
        if !named.contains_key(source.name) {
            named.insert(source.name, *source)?;
        }
    }
    Ok(named)
}

/// The text of a source, with what is asked of it for each fault.
#[derive(Drop)]
pub(crate) struct Page<'s> {
    pub(crate) lines: Lines<'s>,
    /// Its tokens, where its rows are shown.
    pub(crate) tokens: Option<Tokens<'s>>,
}

/// The tokens of a text, in the form that shows its rows.
fn tokens_for<'s>(
    alloc: Global,
    form: Form,
    text: &'s [u8],
    limits: &Limits,
) -> Result<Option<Tokens<'s>>, AllocError>
    ensures { IfOk result (HasTokens form limits.now text.now) }
{
    match form {
        Form::Text => tokens_in(alloc, text, limits),
        Form::Gcc | Form::Github | Form::Json => Ok(None),
    }
}

/// The page of a source.
fn page_of<'s>(
    alloc: Global,
    form: Form,
    source: &Source<'s>,
    limits: &Limits,
) -> Result<Page<'s>, AllocError>
    ensures { IfOk result (IsPageOf form limits.now source.now) }
{
    Ok(Page {
        lines: Lines::new(alloc, source.text)?,
        tokens: tokens_for(alloc, form, source.text, limits)?,
    })
}

/// A file in which faults are: where it lies and, where a source has its name, the page of that.
#[derive(Drop)]
pub(crate) struct OpenFile<'p, 'f, 's> {
    pub(crate) folder: &'p str,
    pub(crate) name: &'f str,
    pub(crate) page: Option<Page<'s>>,
}

/// Opens the file of a name.
pub(crate) fn open_file<'p, 'f, 's>(
    alloc: Global,
    form: Form,
    places: &Places<'p>,
    named: &Named<'s>,
    name: &'f str,
    limits: &Limits,
) -> Result<OpenFile<'p, 'f, 's>, AllocError>
    ensures { (sources : List Source) → FindsSources sources named.now
        → IfOk result (IsOpen form limits.now places.now sources name.now) }
{
    let page = match named.get(name) {
        Some(source) => Some(page_of(alloc, form, source, limits)?),
        None => None,
    };
    Ok(OpenFile {
        folder: places.folder_of(name),
        name,
        page,
    })
}

/// The file of a fault: this one, where it has its name, or else another, which is opened.
pub(crate) fn file_of<'p, 'f, 's>(
    alloc: Global,
    form: Form,
    places: &Places<'p>,
    named: &Named<'s>,
    before: OpenFile<'p, 'f, 's>,
    fault: &'f Fault,
    limits: &Limits,
) -> Result<OpenFile<'p, 'f, 's>, AllocError>
    ensures { (sources : List Source) → FindsSources sources named.now
        → IsOpen form limits.now places.now sources before.entry.name.now before.entry
        → IfOk result (IsOpen form limits.now places.now sources (string_bytes fault.now.file)) }
{
    if before.name == fault.file.as_str() {
        return Ok(before);
    }
    open_file(alloc, form, places, named, fault.file.as_str(), limits)
}
