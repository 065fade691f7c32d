//! What is said of one fault.

ghost use Rattle.std.specs.Prelude.{◌≡◌, ◌<◌, ◌≤◌, ◌-◌, ◌^◌, ◌∷◌, ◌++◌, [], codes, IfOk, IfSome, List, OnOk, length, string_bytes};
ghost use Rattle.fault_report.specs.declared.form.Form.TheVariants as forms;
ghost use Rattle.proto_base.specs.Kind.{name_of};
ghost use Rattle.proto_base.specs.declared.limits.Limits.{Limits};
ghost use Rattle.proto_compile.specs.declared.source.Source.{Source};
ghost use Rattle.schema_check.specs.Added.{AddsBlock, AddsMore};
ghost use Rattle.schema_check.specs.Open.{IsOpen, IsPageOf};
ghost use Rattle.schema_check.specs.Reports.{IsHeadOf, IsListText, IsPlaceOf, gcc_text, github_text, json_fault, json_place, json_row, place_line, place_text, slash_behind};
ghost use Rattle.schema_failure.specs.Lines.{shown_name};
ghost use Rattle.schema_compile.specs.Placed.{source_named};
ghost use Rattle.schema_sources.specs.Places.{folder_in};
ghost use Rattle.schema_sources.specs.declared.places.Places.{Places};

use crate::escaped::{CommandMessage, CommandProperty, JsonText};
use crate::message::Message;
use crate::pages::{OpenFile, Page};
use fault_report::{Excerpt, Form, Line, excerpt_at};
use proto_base::{Fault, Kind};
use schema_explanation::Topic;
use schema_failure::Shown;
use schema_sources::Places;
use std::alloc::{AllocError, Global};
use std::fmt::Write;

/// What stands between a root and the name of a file below it.
pub(crate) fn slash_behind(root: &str) -> &'static str
    ensures { result.now ≡ slash_behind root.now }
{
    if root.as_bytes().ends_with(b"/") {
        ""
    } else {
        "/"
    }
}

/// Where a file lies: its folder, and its name there.
#[derive(Clone, Copy)]
struct Path<'a> {
    folder: &'a str,
    file: &'a str,
}

/// The line of a fault in a file.
fn place_line(
    alloc: Global,
    path: Path<'_>,
    kind: Kind,
    excerpt: &Excerpt,
) -> Result<String, AllocError>
    ensures { IfOk result (λ text. string_bytes text ≡ place_line (shown_name path.entry.folder.now)
        (slash_behind path.entry.folder.now) (shown_name path.entry.file.now) kind excerpt.now) }
{
    let slash = slash_behind(path.folder);
    let root = Shown(path.folder);
    let file = Shown(path.file);
    let line = excerpt.number;
    let column = excerpt.column;
    format!(in alloc; "{root}{slash}{file}:{line}:{column}: {kind}\n")
}

/// The line of a fault in a file, what it is about, and the rows of its text.
fn place_text(
    alloc: Global,
    path: Path<'_>,
    kind: Kind,
    about: &str,
    excerpt: &Excerpt,
) -> Result<String, AllocError>
    ensures { IfOk result (λ text. string_bytes text ≡ place_text (shown_name path.entry.folder.now)
        (slash_behind path.entry.folder.now) (shown_name path.entry.file.now) kind about.now excerpt.now) }
{
    let line = place_line(alloc, path, kind, excerpt)?;
    format!(in alloc; "{line}{about}{excerpt}\n")
}

/// A fault in a file as compilers write it.
fn gcc_text(
    alloc: Global,
    path: Path<'_>,
    line: u32,
    column: u32,
    message: &str,
    kind: Kind,
) -> Result<String, AllocError>
    ensures { IfOk result (λ text. string_bytes text ≡ gcc_text (shown_name path.entry.folder.now)
        (slash_behind path.entry.folder.now) (shown_name path.entry.file.now) line column message.now kind) }
{
    let slash = slash_behind(path.folder);
    let root = Shown(path.folder);
    let file = Shown(path.file);
    format!(in alloc; "{root}{slash}{file}:{line}:{column}: error: {message} [{kind}]\n")
}

/// A fault in a file as a workflow takes it.
fn github_text(
    alloc: Global,
    path: Path<'_>,
    line: u32,
    column: u32,
    message: &str,
    kind: Kind,
) -> Result<String, AllocError>
    ensures { IfOk result (λ text. string_bytes text ≡ github_text path.entry.folder.now
        (slash_behind path.entry.folder.now) path.entry.file.now line column message.now kind) }
{
    let slash = slash_behind(path.folder);
    let root = CommandProperty(path.folder);
    let file = CommandProperty(path.file);
    let message = CommandMessage(message);
    format!(in alloc;
        "::error file={root}{slash}{file},line={line},col={column},title={kind}::{message}\n"
    )
}

/// The members of a JSON object that say where a fault stands.
fn json_place(alloc: Global, path: Path<'_>, line: u32, column: u32) -> Result<String, AllocError>
    ensures { IfOk result (λ text. string_bytes text ≡ json_place path.entry.folder.now
        (slash_behind path.entry.folder.now) path.entry.file.now line column) }
{
    let slash = slash_behind(path.folder);
    let root = JsonText(path.folder);
    let file = JsonText(path.file);
    let below = JsonText(path.file);
    format!(in alloc;
        "\"file\":\"{file}\",\"path\":\"{root}{slash}{below}\",\"line\":{line},\"column\":{column}"
    )
}

/// The members of a JSON object that say what a fault is.
fn json_fault(alloc: Global, fault: &Fault) -> Result<String, AllocError>
    ensures { IfOk result (λ text. string_bytes text ≡ json_fault fault.now) }
{
    let Fault {
        pass,
        place,
        kind,
        ..
    } = fault;
    let number = kind.number();
    format!(in alloc; "\"place\":{place},\"pass\":{pass},\"kind\":\"{kind}\",\"number\":{number}")
}

/// A fault in a file as a JSON object.
fn json_row(
    alloc: Global,
    path: Path<'_>,
    line: u32,
    column: u32,
    message: &str,
    fault: &Fault,
    more: &str,
) -> Result<String, AllocError>
    ensures { IfOk result (λ text. string_bytes text ≡ json_row path.entry.folder.now
        (slash_behind path.entry.folder.now) path.entry.file.now line column message.now fault.now more.now) }
{
    let place = json_place(alloc, path, line, column)?;
    let told = json_fault(alloc, fault)?;
    let message = JsonText(message);
    format!(in alloc; "{{{place},{told},\"message\":\"{message}\"{more}}}\n")
}

/// What is said of a fault in a file, of whose text this is the page: its line and, for people, the rows of the text around the
/// place.
fn place_of(
    alloc: Global,
    form: Form,
    file: &OpenFile<'_, '_, '_>,
    page: &Page<'_>,
    fault: &Fault,
    message: &Message,
) -> Result<String, AllocError>
    requires within { fault.now.place.offset ≤ length page.now.lines.text.now }
    requires short { fault.now.place.offset < 2 ^ 32 - 1 }
    ensures { (limits : Limits) (places : Places) (s : Source) → IsPageOf form limits s page.now
        → file.now.name.now ≡ string_bytes fault.now.file
        → file.now.folder.now ≡ folder_in places (string_bytes fault.now.file)
        → IfOk result (λ said. IsPlaceOf form limits places fault.now s (string_bytes said)) }
{
    let path = Path {
        folder: file.folder,
        file: file.name,
    };
    let kind = fault.kind;
    let said = message.line.as_str();
    let Line { number, column, .. } = page.lines.around(fault.place);
    match form {
        Form::Text => {
            let excerpt = excerpt_at(alloc, &page.lines, &page.tokens, fault.place)?;
            place_text(alloc, path, kind, message.row.as_str(), &excerpt)
        }
        Form::Gcc => gcc_text(alloc, path, number, column, said, kind),
        Form::Github => github_text(alloc, path, number, column, said, kind),
        Form::Json => {
            let more = message.members.as_str();
            json_row(alloc, path, number, column, said, fault, more)
        }
    }
}

/// What is said of a fault of the whole list.
fn list_text(
    alloc: Global,
    form: Form,
    root: &str,
    fault: &Fault,
    message: &Message,
) -> Result<String, AllocError>
    ensures { IfOk result (λ text. IsListText form root.now fault.now (string_bytes text)) }
{
    let kind = fault.kind;
    let said = message.line.as_str();
    let shown = Shown(root);
    match form {
        Form::Text => format!(in alloc; "{shown}: {kind}\n{}", message.row),
        Form::Gcc => format!(in alloc; "{shown}: error: {said} [{kind}]\n"),
        Form::Github => format!(in alloc; "::error title={kind}::{}\n", CommandMessage(said)),
        Form::Json => {
            let path = JsonText(root);
            let pass = fault.pass;
            let number = kind.number();
            let text = JsonText(said);
            format!(in alloc;
                "{{\"file\":null,\"path\":\"{path}\",\"pass\":{pass},\"kind\":\"{kind}\",\"number\":{number},\"message\":\"{text}\"}}\n"
            )
        }
    }
}

/// What is said of a fault, whose message this is, in a file that is open.
fn head_of(
    alloc: Global,
    form: Form,
    places: &Places,
    file: &OpenFile<'_, '_, '_>,
    fault: &Fault,
    message: &Message,
) -> Result<String, AllocError>
    requires within { IfSome file.now.page (λ page. fault.now.place.offset ≤ length page.lines.text.now) }
    requires short { fault.now.place.offset < 2 ^ 32 - 1 }
    ensures { (limits : Limits) (sources : List Source)
        → IsOpen form limits places.now sources (string_bytes fault.now.file) file.now
        → IfOk result (λ said. IsHeadOf form limits places.now fault.now
        (source_named sources (string_bytes fault.now.file)) (string_bytes said)) }
{
    match &file.page {
        Some(page) => place_of(alloc, form, file, page, fault, message),
        None => list_text(alloc, form, places.root, fault, message),
    }
}

/// Puts what a kind of fault means, and its cure, for people.
fn put_cure(report: &mut String, form: Form, kind: Kind, is_first: bool) -> Result<(), AllocError>
    ensures { OnOk result (AddsMore form (string_bytes report.old) (string_bytes report.new)) }
{
    match form {
        Form::Text if is_first => {
            let topic = Topic::Kind(kind);
            let meaning = topic.meaning();
            let cure = topic.cure();
            writeln!(report, "  {meaning}\n  {cure}")
        }
        _ => Ok(()),
    }
}

/// Puts what is said of a fault, whose message this is, in a file that is open. For people it is followed by what its kind means, and
/// its cure, where it is the first of its kind.
pub(crate) fn put_block(
    alloc: Global,
    report: &mut String,
    form: Form,
    places: &Places,
    file: &OpenFile<'_, '_, '_>,
    fault: &Fault,
    message: &Message,
    is_first: bool,
) -> Result<(), AllocError>
    requires within { IfSome file.now.page (λ page. fault.now.place.offset ≤ length page.lines.text.now) }
    requires short { fault.now.place.offset < 2 ^ 32 - 1 }
    ensures { (limits : Limits) (sources : List Source)
        → IsOpen form limits places.now sources (string_bytes fault.now.file) file.now
        → OnOk result (AddsBlock form limits places.now sources fault.now (string_bytes report.old)
        (string_bytes report.new)) }
{
    let head = head_of(alloc, form, places, file, fault, message)?;
    report.push_str(head.as_str())?;
    put_cure(report, form, fault.kind, is_first)
}
