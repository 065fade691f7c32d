//! The commands but `serve` and `check`: what each reads, and what it writes.

ghost use Rattle.std.specs.Prelude.{◌-◌, ◌<◌, ◌^◌, [], ◌∷◌, IfErr, IfOk, string_bytes};
ghost use Rattle.proto_compilation.specs.Compilation.{set_of};
ghost use Rattle.schema_commands.specs.Runs.{IsAnswerRun, IsCompileRun, IsDescribeRun, IsExchanged, IsExplainRun, IsLineOf, IsSetAnswerRun, IsSetRun};
ghost use Rattle.schema_compile.specs.Told.{IsToldOf};

use crate::dependencies::{SetFiles, rule_of};
use crate::set_writing::{Chunk, SetWriter, write_part};
use crate::whole_file::{write_rule, write_whole};
use counted_io::{CountedRead, CountedWrite, read_bytes, write_bytes};
use grpcweb_core::{Mode, answer_io};
use proto_base::{Limit, Limits};
use proto_compilation::Compiled;
use proto_compile::{Leftovers, Source};
use schema_compile::{compile_folder, compile_texts, told};
use schema_explanation::{Topic, explanation};
use schema_failure::Failure;
use schema_headline::describe;
use schema_set::compiled_set;
use schema_sources::{SourceFolder, read_sources};
use share_work::{NoGate, Plan};
use source_folder::NamedText;
use std::alloc::{AllocGlobal, Global};
use std::mem::forget;
use std::random::RandomSource;
use std::rt::Files;
use std::thread::Threads;

/// The descriptor of a source in hexadecimal digits, and a line feed.
fn line_of_source<R>(rt: &R, name: &str, text: &[u8], limits: &Limits) -> Result<String, Failure>
where
    R: Threads + AllocGlobal + Sync,
    ensures line { IfOk result (λ line. IsLineOf limits.now
        (record { name = name.entry; text = text.entry }) (string_bytes line)) }
    ensures refused { IfErr result (IsToldOf limits.now
        (record { name = name.entry; text = text.entry } ∷ [])) }
{
    match describe(rt, name, text, limits) {
        Ok(bytes) => {
            let mut line = hex::encode(rt.alloc(), bytes)?;
            line.push('\n')?;
            Ok(line)
        }
        Err(error) => Err(told(error, &[Source { name, text }])),
    }
}

/// Describes the source that a reader gives.
pub fn run_describe<R, I, O>(
    rt: &R,
    name: &str,
    reader: &mut I,
    writer: &mut O,
) -> Result<(), Failure>
where
    R: Threads + AllocGlobal + Sync,
    I: CountedRead,
    O: CountedWrite,
    requires reader_counts { (I.reads reader.old).failures < 2 ^ 64 - 1 }
    requires writer_counts { (O.writes writer.old).failures < 2 ^ 64 - 1 }
    ensures { IsDescribeRun name.now (I.reads reader.old) (I.reads reader.new)
        (O.writes writer.old) (O.writes writer.new) result }
{
    let limits = Limits::standard();
    let most = limits.read_bound(Limit::FileBytes) as usize;
    let text = read_bytes(rt.alloc(), reader, most)?;
    let line = line_of_source(rt, name, &text, &limits)?;
    write_bytes(writer, line.as_bytes())?;
    Ok(())
}

/// Writes a set to a file or, without one, to the writer.
fn write_set<R, O>(
    rt: &R,
    file: Option<&str>,
    set: &mut SetWriter<'_>,
    writer: &mut O,
) -> Result<(), Failure>
where
    R: Files + RandomSource + AllocGlobal,
    O: CountedWrite,
    requires { (O.writes writer.old).failures < 2 ^ 64 - 1 }
    ensures { IsSetRun file.entry (O.writes writer.old) (O.writes writer.new)
        (set_of set.old.compiled.now.files set.old.compiled.now.links) result }
{
    match file {
        Some(path) => write_whole(rt, path, set, writer),
        None => set.write(writer),
    }
}

/// Writes the rule that says of which sources a set is made to a file, and then the set.
fn write_files<R, F, O>(
    rt: &R,
    folder: &F,
    root: &str,
    texts: &[NamedText],
    files: SetFiles<'_>,
    set: &mut SetWriter<'_>,
    writer: &mut O,
) -> Result<(), Failure>
where
    R: Files + RandomSource + AllocGlobal,
    F: SourceFolder,
    O: CountedWrite,
    requires { (O.writes writer.old).failures < 2 ^ 64 - 1 }
    ensures { IsSetRun files.entry.set (O.writes writer.old) (O.writes writer.new)
        (set_of set.old.compiled.now.files set.old.compiled.now.links) result }
{
    if let (Some(target), Some(dependencies)) = (files.set, files.dependencies) {
        let order = set.compiled.links().set_order();
        let rule = rule_of(rt.alloc(), folder, root, texts, target, order)?;
        write_rule(rt, dependencies, rule.as_str())?;
    }
    write_set(rt, files.set, set, writer)
}

/// Compiles the sources of a folder, whose root is shown so, and writes the set to a file or, without one, to the writer. What was
/// compiled is not let go: a process that compiles ends with this.
pub fn run_compile<R, F, O>(
    rt: &R,
    folder: &F,
    root: &str,
    plan: Plan,
    files: SetFiles<'_>,
    writer: &mut O,
) -> Result<(), Failure>
where
    R: Threads + Files + RandomSource + AllocGlobal + Sync,
    F: SourceFolder + Sync,
    O: CountedWrite,
    requires { (O.writes writer.old).failures < 2 ^ 64 - 1 }
    ensures { IsCompileRun (F.sources folder.now) files.entry.set (O.writes writer.old)
        (O.writes writer.new) result }
{
    let limits = Limits::standard();
    let chunk = Chunk::new(rt.alloc())?;
    let texts = read_sources(rt, folder, &limits, plan)?;
    let compiled = compile_texts(rt, &texts, &limits, plan, Leftovers::Forgotten)?;
    let mut set = SetWriter::new(&compiled, chunk);
    let written = write_files(rt, folder, root, &texts, files, &mut set, writer);
    drop(set);
    forget(compiled);
    forget(texts);
    written
}

/// Answers the request body that a reader gives over a compilation.
fn answer_over<R, I, O>(
    rt: &R,
    compiled: Compiled,
    plan: Plan,
    mode: Mode,
    reader: &mut I,
    writer: &mut O,
) -> Result<(), Failure>
where
    R: Threads + AllocGlobal + Sync,
    I: CountedRead,
    O: CountedWrite,
    requires reader_counts { (I.reads reader.old).failures < 2 ^ 64 - 1 }
    requires writer_counts { (O.writes writer.old).failures < 2 ^ 64 - 1 }
    ensures { IsExchanged mode compiled (I.reads reader.old) (I.reads reader.new)
        (O.writes writer.old) (O.writes writer.new) result }
{
    let exchanged = answer_io(rt, &compiled, plan, &NoGate, mode, reader, writer);
    drop(compiled);
    exchanged?;
    Ok(())
}

/// Answers the request body that a reader gives over the sources of a folder.
pub fn run_answer<R, F, I, O>(
    rt: &R,
    folder: &F,
    plan: Plan,
    mode: Mode,
    reader: &mut I,
    writer: &mut O,
) -> Result<(), Failure>
where
    R: Threads + AllocGlobal + Sync,
    F: SourceFolder + Sync,
    I: CountedRead,
    O: CountedWrite,
    requires reader_counts { (I.reads reader.old).failures < 2 ^ 64 - 1 }
    requires writer_counts { (O.writes writer.old).failures < 2 ^ 64 - 1 }
    ensures { IsAnswerRun (F.sources folder.now) mode (I.reads reader.old) (I.reads reader.new)
        (O.writes writer.old) (O.writes writer.new) result }
{
    let compiled = compile_folder(rt, folder, &Limits::standard(), plan)?;
    answer_over(rt, compiled, plan, mode, reader, writer)
}

/// Answers the request body that a reader gives over the files of the set at a path.
pub fn run_answer_set<R, I, O>(
    rt: &R,
    set: &str,
    plan: Plan,
    mode: Mode,
    reader: &mut I,
    writer: &mut O,
) -> Result<(), Failure>
where
    R: Threads + Files + AllocGlobal + Sync,
    I: CountedRead,
    O: CountedWrite,
    requires reader_counts { (I.reads reader.old).failures < 2 ^ 64 - 1 }
    requires writer_counts { (O.writes writer.old).failures < 2 ^ 64 - 1 }
    ensures { IsSetAnswerRun set.now mode (I.reads reader.old) (I.reads reader.new)
        (O.writes writer.old) (O.writes writer.new) result }
{
    let compiled = compiled_set(rt, set, &Limits::standard())?;
    answer_over(rt, compiled, plan, mode, reader, writer)
}

/// Explains a kind of fault or another line, or lists all.
pub fn run_explain<O: CountedWrite>(
    alloc: Global,
    topic: Option<Topic>,
    writer: &mut O,
) -> Result<(), Failure>
    requires { (O.writes writer.old).failures < 2 ^ 64 - 1 }
    ensures { IsExplainRun topic (O.writes writer.old) (O.writes writer.new) result }
{
    let page = explanation(alloc, topic)?;
    write_part(page.as_bytes(), writer)
}
