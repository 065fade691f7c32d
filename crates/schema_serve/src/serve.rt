//! What a run of `serve` does.

ghost use Rattle.std.specs.Prelude.{◌≡◌, ◌-◌, ◌<◌, ◌^◌, IfOk};
ghost use Rattle.schema_serve.specs.Runs.{IsServeRun, IsService, IsServiceOf, IsSetServeRun, end_of_run, of_service};

use crate::journal::Lines;
use crate::listening::{Listening, listen_at};
use crate::task::ServeTask;
use counted_io::{CountedWrite, write_bytes};
use grpcweb_service::{EndedService, ReflectionService, serve_with};
use http_connection::{ServeFault, ServeTrouble};
use proto_base::Limits;
use proto_compilation::Compiled;
use schema_compile::compile_folder;
use schema_failure::{Device, Failure};
use schema_set::compiled_set;
use schema_sources::SourceFolder;
use share_work::NoGate;
use std::alloc::{AllocError, AllocGlobal, Global};
use std::io::Write;
use std::net::Net;
use std::random::RandomSource;
use std::rt::Files;
use std::sync::{Arc, Wait};
use std::thread::Threads;
use std::time::Clock;

/// The failure that ends a service.
fn failure_of(trouble: ServeTrouble) -> Failure
    ensures { result ≡ of_service trouble }
{
    match trouble.fault {
        ServeFault::AcceptFault => Failure::Device {
            device: Device::Accept,
            error: trouble.error,
        },
        ServeFault::NoMemory => Failure::NoMemory,
    }
}

/// How a run ended, and its service with it.
pub fn end_of_run(run: Result<EndedService, Failure>) -> Result<(), Failure>
    ensures { result ≡ end_of_run run }
{
    match run?.into_end() {
        Ok(_) => Ok(()),
        Err(trouble) => Err(failure_of(trouble)),
    }
}

/// The service of a compilation that a task asks for.
fn service_of(
    alloc: Global,
    compiled: Compiled,
    task: &ServeTask,
) -> Result<ReflectionService, AllocError>
    ensures { IfOk result (IsServiceOf compiled task.now) }
{
    Ok(ReflectionService {
        compiled: Arc::new(alloc, compiled)?,
        mode: task.mode,
        plan: task.plan,
        options: task.options,
        connections: task.connections,
    })
}

/// Serves reflection over a compilation, and writes `listening on ADDRESS:PORT` first.
fn serve_over<R, O, E>(
    rt: &R,
    compiled: Compiled,
    task: &ServeTask,
    output: &mut O,
    journal: Option<&mut E>,
) -> Result<EndedService, Failure>
where
    R: Wait + Threads + Clock + RandomSource + AllocGlobal + Sync + Clone + Drop + Net,
    O: CountedWrite,
    E: Write,
    requires { (O.writes output.old).failures < 2 ^ 64 - 1 }
    ensures { IsService compiled task.now (O.writes output.old) (O.writes output.new) result }
{
    let service = service_of(rt.alloc(), compiled, task)?;
    let listening = listen_at(rt, task.listen)?;
    let Listening { mut runtime, bound } = listening;
    let address = bound.address();
    let line = format!(in rt.alloc(); "listening on {address}\n")?;
    write_bytes(output, line.as_bytes())?;
    let journal = Lines::new(rt.alloc(), journal);
    let ended = serve_with(rt, &mut runtime, bound, &service, NoGate, journal)?;
    Ok(ended)
}

/// Serves reflection over the sources of a folder, as a task asks for it, and gives how the service ended (`end_of_run`). It fails
/// with the first fault of the sources, with the device `Listen` where it cannot listen there, and with `Output` where the line
/// `listening on ADDRESS:PORT` could not be written.
///
/// A journal, where there is one, gets a line for each request that was answered, and one for each connection whose answer was
/// not taken, and why. What it refuses is lost.
pub fn run_serve<R, F, O, E>(
    rt: &R,
    folder: &F,
    task: &ServeTask,
    output: &mut O,
    journal: Option<&mut E>,
) -> Result<EndedService, Failure>
where
    R: Wait + Threads + Clock + RandomSource + AllocGlobal + Sync + Clone + Drop + Net,
    F: SourceFolder + Sync,
    O: CountedWrite,
    E: Write,
    requires { (O.writes output.old).failures < 2 ^ 64 - 1 }
    ensures { IsServeRun (F.sources folder.now) task.now (O.writes output.old) (O.writes output.new)
        result }
{
    let compiled = compile_folder(rt, folder, &Limits::standard(), task.plan)?;
    serve_over(rt, compiled, task, output, journal)
}

/// Serves reflection over the files of the set at a path, as `run_serve` does over sources.
pub fn run_serve_set<R, O, E>(
    rt: &R,
    set: &str,
    task: &ServeTask,
    output: &mut O,
    journal: Option<&mut E>,
) -> Result<EndedService, Failure>
where
    R: Wait + Threads + Files + Clock + RandomSource + AllocGlobal + Sync + Clone + Drop + Net,
    O: CountedWrite,
    E: Write,
    requires { (O.writes output.old).failures < 2 ^ 64 - 1 }
    ensures { IsSetServeRun set.now task.now (O.writes output.old) (O.writes output.new) result }
{
    let compiled = compiled_set(rt, set, &Limits::standard())?;
    serve_over(rt, compiled, task, output, journal)
}
