//! The whole program, over any reader and writers.

ghost use Rattle.std.specs.Prelude.{◌≡◌, ◌-◌, ◌<◌, ◌≤◌, ◌^◌};
ghost use Rattle.std.specs.Result.{result_ok};
ghost use Rattle.schema_failure.specs.Statuses.{status_after};
ghost use Rattle.schema_program.specs.Performed.{AreOptionsOf, IsAnswerFrom, IsEndOf, IsPerformed, IsRun, IsServeFrom, IsServeTask, IsUsageRun, sound_of};

use clap::Error;
use clap::error::ErrorKind;
use counted_io::{CountedRead, CountedWrite, write_bytes};
use first_reach::Mode;
use grpcweb_service::EndedService;
use http_connection::ServeOptions;
use schema_check::run_check;
use schema_command_line::{Asked, Origin, Selection, Service, Task, Verbosity, asked_of};
use schema_commands::{
    SetFiles, run_answer, run_answer_set, run_compile, run_describe, run_explain,
};
use schema_failure::{Device, ExitStatus, Failure, Verdict, write_detail, write_failure};
use schema_serve::{ServeTask, end_of_run, run_serve, run_serve_set};
use schema_sources::SystemFolder;
use share_work::Plan;
use std::alloc::{AllocGlobal, Global};
use std::io::{self, Write};
use std::net::Net;
use std::random::RandomSource;
use std::rt::Files;
use std::sync::Wait;
use std::thread::Threads;
use std::time::{Clock, Duration};

/// The folders and files that the words select.
fn folder_of<'a, R>(rt: &'a R, selection: &'a Selection<'a>) -> SystemFolder<'a, R>
    ensures { result.custom_options ≡ selection.now.custom_options }
{
    SystemFolder {
        rt,
        root: selection.root,
        includes: &selection.includes,
        excludes: &selection.excludes,
        files: &selection.files,
        custom_options: selection.custom_options,
    }
}

/// How a command ended that gives no verdict: where it came to its end, the sources have no fault.
fn sound(done: Result<(), Failure>) -> Result<Verdict, Failure>
    ensures { result ≡ sound_of done }
{
    match done {
        Ok(()) => Ok(Verdict::Sound),
        Err(failure) => Err(failure),
    }
}

/// How many clients the words ask for at once, and how long each has. The parser of the words lets no other counts through.
fn options_of(service: &Service) -> ServeOptions
    ensures { 1 ≤ service.now.clients → service.now.clients ≤ 1024 → AreOptionsOf service.now result }
{
    let time = service
        .client_seconds
        .map(|seconds| Duration::from_secs(u64::from(seconds)));
    ServeOptions::new(service.clients, time).unwrap_or_default()
}

/// What the words ask to serve.
fn serve_task<'a>(service: &Service<'a>, plan: Plan, mode: Mode) -> ServeTask<'a>
    ensures { IsServeTask service.now plan mode result }
{
    ServeTask {
        listen: service.listen,
        mode,
        plan,
        options: options_of(service),
        connections: service.connections,
    }
}

/// Serves from sources, or from a set.
fn serve_from<R, O, E>(
    rt: &R,
    origin: &Origin,
    task: &ServeTask,
    output: &mut O,
    journal: Option<&mut E>,
) -> Result<EndedService, Failure>
where
    R: Wait + Threads + Files + Clock + RandomSource + AllocGlobal + Sync + Clone + Drop + Net,
    R::File: Sync,
    R::Dir: Sync,
    O: CountedWrite,
    E: Write,
    requires { (O.writes output.old).failures < 2 ^ 64 - 1 }
    ensures { IsServeFrom origin.now task.now (O.writes output.old) (O.writes output.new) result }
{
    match origin {
        Origin::Sources(selection) => {
            let folder = folder_of(rt, selection);
            run_serve(rt, &folder, task, output, journal)
        }
        Origin::Set(set) => run_serve_set(rt, set, task, output, journal),
    }
}

/// Answers from sources, or from a set.
fn answer_from<R, I, O>(
    rt: &R,
    origin: &Origin,
    plan: Plan,
    mode: Mode,
    input: &mut I,
    output: &mut O,
) -> Result<(), Failure>
where
    R: Threads + Files + AllocGlobal + Sync,
    R::File: Sync,
    R::Dir: Sync,
    I: CountedRead,
    O: CountedWrite,
    requires reader_counts { (I.reads input.old).failures < 2 ^ 64 - 1 }
    requires writer_counts { (O.writes output.old).failures < 2 ^ 64 - 1 }
    ensures { IsAnswerFrom origin.now mode (I.reads input.old) (I.reads input.new)
        (O.writes output.old) (O.writes output.new) result }
{
    match origin {
        Origin::Sources(selection) => {
            let folder = folder_of(rt, selection);
            run_answer(rt, &folder, plan, mode, input, output)
        }
        Origin::Set(set) => run_answer_set(rt, set, plan, mode, input, output),
    }
}

/// Does what a task asks for. A service may have a journal.
fn perform<R, I, O, E>(
    rt: &R,
    task: &Task,
    input: &mut I,
    output: &mut O,
    journal: Option<&mut E>,
) -> Result<Verdict, Failure>
where
    R: Wait + Threads + Files + Clock + RandomSource + AllocGlobal + Sync + Clone + Drop + Net,
    R::File: Sync,
    R::Dir: Sync,
    I: CountedRead,
    O: CountedWrite,
    E: Write,
    requires reader_counts { (I.reads input.old).failures < 2 ^ 64 - 1 }
    requires writer_counts { (O.writes output.old).failures < 2 ^ 64 - 1 }
    ensures { IsPerformed task.now (I.reads input.old) (I.reads input.new) (O.writes output.old)
        (O.writes output.new) result }
{
    match task {
        Task::Compile {
            selection,
            plan,
            file,
            dependencies,
        } => {
            let folder = folder_of(rt, selection);
            let files = SetFiles {
                set: *file,
                dependencies: *dependencies,
            };
            sound(run_compile(rt, &folder, selection.root, *plan, files, output))
        }
        Task::Check {
            selection,
            plan,
            form,
        } => {
            let folder = folder_of(rt, selection);
            run_check(rt, &folder, *form, selection.root, *plan, output)
        }
        Task::Serve {
            origin,
            service,
            plan,
            mode,
        } => {
            let asked = serve_task(service, *plan, *mode);
            sound(end_of_run(serve_from(rt, origin, &asked, output, journal)))
        }
        Task::Answer { origin, plan, mode } => {
            sound(answer_from(rt, origin, *plan, *mode, input, output))
        }
        Task::Describe { name } => sound(run_describe(rt, name, input, output)),
        Task::Explain { topic } => sound(run_explain(rt.alloc(), *topic, output)),
    }
}

/// The status of a run that ends so, after the line of its failure. That it cannot be printed changes nothing.
fn finish<E: Write>(done: &Result<Verdict, Failure>, faults: &mut E) -> ExitStatus
    ensures { result ≡ status_after done.now }
{
    if let Err(failure) = done {
        let _ = write_failure(failure, faults);
    }
    ExitStatus::after(done)
}

/// Prints a text on the output.
fn print_text<O: CountedWrite>(
    alloc: Global,
    error: &Error,
    output: &mut O,
) -> Result<Verdict, Failure>
    requires { (O.writes output.old).failures < 2 ^ 64 - 1 }
    ensures { IsUsageRun (O.writes output.old) (O.writes output.new) (status_after result) }
{
    let text = format!(in alloc; "{error}")?;
    write_bytes(output, text.as_bytes())?;
    Ok(Verdict::Sound)
}

/// Prints what `clap` has to say: help and the version on the output, and what is wrong with the words on the faults.
fn tell_usage<O: CountedWrite, E: Write>(
    alloc: Global,
    error: &Error,
    output: &mut O,
    faults: &mut E,
) -> ExitStatus
    requires { (O.writes output.old).failures < 2 ^ 64 - 1 }
    ensures { IsUsageRun (O.writes output.old) (O.writes output.new) result }
{
    match error.kind() {
        ErrorKind::OutOfMemory => finish(&Err(Failure::NoMemory), faults),
        ErrorKind::DisplayHelp | ErrorKind::DisplayVersion => {
            finish(&print_text(alloc, error, output), faults)
        }
        _ => {
            let _ = write!(faults, "{error}");
            ExitStatus::CommandLine
        }
    }
}

/// What a device said when it failed, where the run does not know it yet: the reader and the writer keep that.
fn reason_of<I, O>(device: Device, input: &I, output: &O) -> Option<io::Error>
where
    I: CountedRead,
    O: CountedWrite,
{
    match device {
        Device::Input => input.last_error(),
        Device::Output => output.last_error(),
        Device::Dependencies | Device::Set | Device::Listen | Device::Accept => None,
    }
}

/// How a run ended, with what the reader or the writer said that failed.
fn with_reason<I, O>(
    done: Result<Verdict, Failure>,
    input: &I,
    output: &O,
) -> Result<Verdict, Failure>
where
    I: CountedRead,
    O: CountedWrite,
    ensures { status_after result ≡ status_after done }
{
    match done {
        Err(
            Failure::Device {
                device,
                error: None,
            },
        ) => Err(Failure::Device {
            device,
            error: reason_of(device, input, output),
        }),
        _ => done,
    }
}

/// What the words of a run call a device.
fn called<'a>(device: Device, task: &Task<'a>) -> &'a str {
    match (device, task) {
        (Device::Input, _) => "standard input",
        (
            Device::Output,
            Task::Compile {
                file: Some(file),
                ..
            },
        ) => file,
        (Device::Output, _) => "standard output",
        (
            Device::Dependencies,
            Task::Compile {
                dependencies: Some(file),
                ..
            },
        ) => file,
        (
            Device::Set,
            Task::Serve {
                origin: Origin::Set(set),
                ..
            }
            | Task::Answer {
                origin: Origin::Set(set),
                ..
            },
        ) => set,
        (_, Task::Serve { service, .. }) => service.listen,
        (_, _) => device.name(),
    }
}

/// What the words of a run call the device that failed, if one did.
fn device_called<'a>(failure: &Failure, task: &Task<'a>) -> &'a str {
    match failure {
        Failure::Device { device, .. } => called(*device, task),
        _ => "",
    }
}

/// Tells what is known beside the line of a failure, where the run is verbose. `check` is for people, so it tells that always.
fn tell_detail<E: Write>(done: &Result<Verdict, Failure>, asked: &Asked, faults: &mut E) {
    let is_verbose = matches!(asked.verbosity, Verbosity::Verbose);
    if let Err(failure) = done {
        if is_verbose || matches!(asked.task, Task::Check { .. }) {
            let _ = write_detail(failure, device_called(failure, &asked.task), faults);
        }
    }
}

/// What the journal of a service goes to, where there is one.
fn journal_of<'e, E>(verbosity: Verbosity, faults: &'e mut E) -> Option<&'e mut E> {
    match verbosity {
        Verbosity::Brief => None,
        Verbosity::Verbose => Some(faults),
    }
}

/// Does what the words ask for, or tells why they ask for nothing.
fn end_of<R, I, O, E>(
    rt: &R,
    asked: &Result<Asked, Error>,
    input: &mut I,
    output: &mut O,
    faults: &mut E,
) -> ExitStatus
where
    R: Wait + Threads + Files + Clock + RandomSource + AllocGlobal + Sync + Clone + Drop + Net,
    R::File: Sync,
    R::Dir: Sync,
    I: CountedRead,
    O: CountedWrite,
    E: Write,
    requires reader_counts { (I.reads input.old).failures < 2 ^ 64 - 1 }
    requires writer_counts { (O.writes output.old).failures < 2 ^ 64 - 1 }
    ensures { IsEndOf (result_ok asked.now) (I.reads input.old) (I.reads input.new)
        (O.writes output.old) (O.writes output.new) result }
{
    match asked {
        Ok(asked) => {
            let journal = journal_of(asked.verbosity, faults);
            let done = perform(rt, &asked.task, input, output, journal);
            let done = with_reason(done, input, output);
            let status = finish(&done, faults);
            tell_detail(&done, asked, faults);
            status
        }
        Err(error) => tell_usage(rt.alloc(), error, output, faults),
    }
}

/// Runs the program on `words`, whose first is its name, and gives its exit status: 0 done, 1 a fault of a source,
/// 2 a wrong command line, 3 a device that failed, 4 no memory. For 1, 3 and 4 one line goes to `faults`, but for the faults
/// that `check` tells on the output; for 2 the text of `clap`. A second line has what is known beside that one, for `check` and with
/// `--verbose`, and then `serve` has a line for each request, too. What `faults` refuses is lost.
pub fn run<R, I, O, E>(rt: &R, words: &[&str], input: &mut I, output: &mut O, faults: &mut E) -> u8
where
    R: Wait + Threads + Files + Clock + RandomSource + AllocGlobal + Sync + Clone + Drop + Net,
    R::File: Sync,
    R::Dir: Sync,
    I: CountedRead,
    O: CountedWrite,
    E: Write,
    requires reader_counts { (I.reads input.old).failures < 2 ^ 64 - 1 }
    requires writer_counts { (O.writes output.old).failures < 2 ^ 64 - 1 }
    ensures { IsRun (I.reads input.old) (I.reads input.new) (O.writes output.old)
        (O.writes output.new) result }
{
    let asked = asked_of(rt.alloc(), words);
    end_of(rt, &asked, input, output, faults).code()
}
