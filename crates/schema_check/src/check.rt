//! Checking the sources of a folder.

ghost use Rattle.std.specs.Prelude.{◌≡◌, ◌-◌, ◌<◌, ◌^◌, IfOk, length, string_bytes};
ghost use Rattle.schema_check.specs.Runs.{AreFindings, IsCheckRun, IsFolderCheck, IsShownReport, verdict_of};
ghost use Rattle.schema_check.specs.Told.{ArePlaced};

use crate::report::report_of;
use crate::told::told_faults;
use crate::written::shown_texts;
use counted_io::{CountedWrite, write_bytes};
use fault_report::Form;
use fault_words::{File, Words, words_of_faults};
use proto_base::{Fault, Limits};
use proto_compile::Source;
use schema_compile::sources_of;
use schema_failure::{Failure, Verdict};
use schema_sources::{Places, SourceFolder, read_sources};
use share_work::Plan;
use skipped_sources::CustomOptions;
use source_folder::NamedText;
use std::alloc::{AllocError, AllocGlobal, Global};
use std::thread::Threads;

/// What sources are that have these faults.
fn verdict_of(faults: &[Fault]) -> Verdict
    ensures { result ≡ verdict_of faults.now }
{
    if faults.is_empty() {
        Verdict::Sound
    } else {
        Verdict::Faulty
    }
}

/// The report on faults of sources that lie so. Where custom options were skipped, the rows of a text are those of its file as it is
/// written.
fn shown_report<R, F>(
    rt: &R,
    folder: &F,
    form: Form,
    places: &Places,
    sources: &[Source],
    faults: &[Fault],
    words: &[Option<Words<'_>>],
    limits: &Limits,
) -> Result<String, AllocError>
where
    R: AllocGlobal,
    F: SourceFolder,
    requires placed { ArePlaced sources.now faults.now }
    requires words { length words.now ≡ length faults.now }
    ensures { IfOk result (λ report. IsShownReport (F.sources folder.now).custom_options form limits.now places.now
        sources.now faults.now (string_bytes report)) }
{
    let alloc = rt.alloc();
    match folder.custom_options() {
        CustomOptions::Refuse => { report_of(alloc, form, places, sources, faults, words, limits) }
        CustomOptions::Skip => {
            let texts = shown_texts(alloc, folder, sources, faults, limits)?;
            let shown = sources_of(alloc, &texts)?;
            report_of(alloc, form, places, &shown, faults, words, limits)
        }
    }
}

/// What was found of sources, and what is said of it.
#[derive(Drop)]
struct Findings {
    verdict: Verdict,
    report: String,
}

/// These sources, as they are spoken of.
fn files_of<'s>(alloc: Global, sources: &[Source<'s>]) -> Result<Vec<File<'s>>, AllocError> {
    sources
        .iter()
        .map(|source| File {
            name: source.name,
            text: source.text,
        })
        .collect(alloc)
}

/// What is found of sources of a folder that lie so.
fn findings_of<R, F>(
    rt: &R,
    folder: &F,
    form: Form,
    places: &Places,
    sources: &[Source],
    limits: &Limits,
    plan: Plan,
) -> Result<Findings, AllocError>
where
    R: Threads + AllocGlobal + Sync,
    F: SourceFolder,
    ensures { IfOk result (λ found. AreFindings (F.sources folder.now).custom_options form limits.now places.now
        sources.now found.verdict (string_bytes found.report)) }
{
    let faults = told_faults(rt, sources, limits, plan)?;
    let faults = faults.as_slice();
    let files = files_of(rt.alloc(), sources)?;
    let words = words_of_faults(rt.alloc(), &files, faults, limits)?;
    Ok(Findings {
        verdict: verdict_of(faults),
        report: shown_report(rt, folder, form, places, sources, faults, &words, limits)?,
    })
}

/// Writes all faults of a folder's read texts that can be told at once (`told_faults`), in this form (`report_of`). The answer is
/// `Sound` only where there is none.
///
/// The report is made before it is written, so `NoMemory` comes before a byte is; `Output` is a writer that failed.
pub fn check_texts<R, F, O>(
    rt: &R,
    folder: &F,
    form: Form,
    places: &Places,
    texts: &[NamedText],
    limits: &Limits,
    plan: Plan,
    output: &mut O,
) -> Result<Verdict, Failure>
where
    R: Threads + AllocGlobal + Sync,
    F: SourceFolder,
    O: CountedWrite,
    requires { (O.writes output.old).failures < 2 ^ 64 - 1 }
    ensures { IsCheckRun (F.sources folder.now).custom_options form limits.now places.now texts.now
        (O.writes output.old) (O.writes output.new) result }
{
    let sources = sources_of(rt.alloc(), texts)?;
    let plan = plan.evened(texts.len());
    let found = findings_of(rt, folder, form, places, &sources, limits, plan)?;
    write_bytes(output, found.report.as_bytes())?;
    Ok(found.verdict)
}

/// Checks the sources of a folder, whose root is shown so, and of what they import (`check_texts`).
pub fn run_check<R, F, O>(
    rt: &R,
    folder: &F,
    form: Form,
    root: &str,
    plan: Plan,
    output: &mut O,
) -> Result<Verdict, Failure>
where
    R: Threads + AllocGlobal + Sync,
    F: SourceFolder + Sync,
    O: CountedWrite,
    requires { (O.writes output.old).failures < 2 ^ 64 - 1 }
    ensures { IsFolderCheck (F.sources folder.now) form root.now (O.writes output.old)
        (O.writes output.new) result }
{
    let limits = Limits::standard();
    let texts = read_sources(rt, folder, &limits, plan)?;
    let elsewhere = folder.elsewhere(&texts)?;
    let places = Places {
        root,
        elsewhere: &elsewhere,
    };
    check_texts(rt, folder, form, &places, &texts, &limits, plan, output)
}
