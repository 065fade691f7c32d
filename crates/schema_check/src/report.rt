//! What is said of all faults.

ghost use Rattle.std.specs.Prelude.{◌≡◌, ◌-◌, ◌<◌, ◌≤◌, ◌^◌, IfOk, IfSome, List, OnOk, length, string_bytes};
ghost use Rattle.proto_base.specs.declared.limits.Limits.{Limits};
ghost use Rattle.proto_compile.specs.declared.source.Source.{Source};
ghost use Rattle.schema_check.specs.Added.{AddsBlock, AddsBlocks};
ghost use Rattle.schema_check.specs.Open.{IsOpen};
ghost use Rattle.schema_check.specs.Reports.{IsReport, empty_text, end_of, faulty_text, plural, sound_text, summary_of, unseen_behind, unseen_text};
ghost use Rattle.schema_check.specs.Told.{ArePlaced};
ghost use Rattle.schema_failure.specs.Lines.{shown_name};

use crate::blocks::put_block;
use crate::message::{OtherLines, message_of};
use crate::pages::{Named, OpenFile, by_name, file_of, open_file};
use fault_report::Form;
use fault_words::Words;
use proto_base::{Fault, Limits};
use proto_compile::Source;
use schema_failure::Shown;
use schema_sources::Places;
use std::alloc::{AllocError, Global};
use std::collections::{BTreeSet, HashMap};

/// What ends the word for so many things.
fn plural(count: usize) -> &'static str
    ensures { result.now ≡ plural count }
{
    if count == 1 { "" } else { "s" }
}

/// The only line of a report on no sources.
fn empty_text(alloc: Global, root: &str) -> Result<String, AllocError>
    ensures { IfOk result (λ line. string_bytes line ≡ empty_text (shown_name root.now)) }
{
    let root = Shown(root);
    format!(in alloc; "no file that ends in .proto below {root}\n")
}

/// The last line of a report on sources without a fault.
fn sound_text(alloc: Global, files: usize, more: &str) -> Result<String, AllocError>
    ensures { IfOk result (λ line. string_bytes line ≡ sound_text files more.now) }
{
    format!(in alloc; "{files} file{more}, no fault\n")
}

/// The last line of a report on sources with faults.
fn faulty_text(
    alloc: Global,
    faults: usize,
    more_faults: &str,
    files: usize,
    more_files: &str,
) -> Result<String, AllocError>
    ensures { IfOk result (λ line. string_bytes line
        ≡ faulty_text faults more_faults.now files more_files.now) }
{
    format!(in alloc; "{faults} fault{more_faults} in {files} file{more_files}\n")
}

/// The last line of a report.
fn summary_of(alloc: Global, root: &str, faults: usize, files: usize) -> Result<String, AllocError>
    ensures { IfOk result (λ line. string_bytes line ≡ summary_of root.now faults files) }
{
    match (faults, files) {
        (0, 0) => empty_text(alloc, root),
        (0, _) => sound_text(alloc, files, plural(files)),
        _ => faulty_text(alloc, faults, plural(faults), files, plural(files)),
    }
}

/// What the passes behind this one look at, which were not looked at.
fn unseen_text(pass: u8) -> &'static str
    ensures { result.now ≡ unseen_text pass }
{
    match pass {
        1 => "imports, names and types are looked at when these are mended\n",
        2 => "names and types are looked at when these are mended\n",
        3 => "types are looked at when these are mended\n",
        _ => "",
    }
}

/// The same of the pass of the first fault, if there is one.
fn unseen_behind(faults: &[Fault]) -> &'static str
    ensures { result.now ≡ unseen_behind faults.now }
{
    match faults {
        [first, ..] => unseen_text(first.pass),
        [] => "",
    }
}

/// The last lines of a report, which only people read.
fn end_of(
    alloc: Global,
    form: Form,
    root: &str,
    faults: &[Fault],
    files: usize,
) -> Result<String, AllocError>
    ensures { IfOk result (λ end. string_bytes end ≡ end_of form root.now faults.now files) }
{
    match form {
        Form::Text => {
            let mut end = summary_of(alloc, root, faults.len(), files)?;
            end.push_str(unseen_behind(faults))?;
            Ok(end)
        }
        Form::Gcc | Form::Github | Form::Json => Ok(String::new(alloc)),
    }
}

/// Puts what is said of a fault in a file that is open, of which these words are known, if any are.
fn put_said<'s>(
    alloc: Global,
    report: &mut String,
    form: Form,
    places: &Places,
    named: &Named<'s>,
    others: &mut OtherLines<'s>,
    file: &OpenFile<'_, '_, 's>,
    fault: &Fault,
    words: &Option<Words<'_>>,
    is_first: bool,
) -> Result<(), AllocError>
    requires within { IfSome file.now.page (λ page. fault.now.place.offset ≤ length page.lines.text.now) }
    requires short { fault.now.place.offset < 2 ^ 32 - 1 }
    ensures { (limits : Limits) (sources : List Source)
        → IsOpen form limits places.now sources (string_bytes fault.now.file) file.now
        → OnOk result (AddsBlock form limits places.now sources fault.now (string_bytes report.old)
        (string_bytes report.new)) }
{
    let message = message_of(alloc, form, places, named, others, file, fault, words)?;
    put_block(alloc, report, form, places, file, fault, &message, is_first)
}

/// Puts what is said of each fault, of which there are words in a list of as many, where anything is known. A file is opened once for all
/// of its faults.
fn put_blocks(
    alloc: Global,
    report: &mut String,
    form: Form,
    places: &Places,
    sources: &[Source],
    faults: &[Fault],
    words: &[Option<Words<'_>>],
    limits: &Limits,
) -> Result<(), AllocError>
    requires placed { ArePlaced sources.now faults.now }
    requires words { length words.now ≡ length faults.now }
    ensures { OnOk result (AddsBlocks form limits.now places.now sources.now faults.now (string_bytes report.old)
        (string_bytes report.new)) }
{
    let named = by_name(alloc, sources)?;
    let mut others = HashMap::new(alloc);
    let mut file = open_file(alloc, form, places, &named, "", limits)?;
    let mut told = BTreeSet::new(alloc);
    for (at, fault) in faults.iter().enumerate() {
        file = file_of(alloc, form, places, &named, file, fault, limits)?;
        let is_first = told.insert(fault.kind)?;
        put_said(
            alloc,
            report,
            form,
            places,
            &named,
            &mut others,
            &file,
            fault,
            &words[at],
            is_first,
        )?;
    }
    Ok(())
}

/// What is said of the faults of sources that lie so, of each of which there are words in a list of as many, where anything is known: in
/// each form its line; for people also the row of its text with carets and, where it is the first of its kind, what this means and
/// its cure; and at last how many there are, and what was not looked at.
pub fn report_of(
    alloc: Global,
    form: Form,
    places: &Places,
    sources: &[Source],
    faults: &[Fault],
    words: &[Option<Words<'_>>],
    limits: &Limits,
) -> Result<String, AllocError>
    requires placed { ArePlaced sources.now faults.now }
    requires words { length words.now ≡ length faults.now }
    ensures { IfOk result (λ report. IsReport form limits.now places.now sources.now faults.now
        (string_bytes report)) }
{
    let mut report = String::new(alloc);
    put_blocks(
        alloc,
        &mut report,
        form,
        places,
        sources,
        faults,
        words,
        limits,
    )?;
    let end = end_of(alloc, form, places.root, faults, sources.len())?;
    report.push_str(end.as_str())?;
    Ok(report)
}
