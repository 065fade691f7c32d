//! What the words of a run ask for.

ghost use Rattle.std.specs.Prelude.{◌≡◌, IfOk, IfSome, codes, map, option_map};
ghost use Rattle.clap.specs.Matches.{first_value, found_of};
ghost use Rattle.clap.specs.declared.parser.matches.ArgMatches.{ArgMatches};
ghost use Rattle.schema_command_line.specs.Tasks.{AreCustomOptions, IsAsked, IsCount, IsMode, IsOrigin, IsPlan, IsSelection, IsService, IsTaskNamed, IsVerbosity, file_of, form_named, value_of, values_of};

use crate::words::whole_command;
use clap::error::ErrorKind;
use clap::{ArgMatches, Error};
use fault_report::Form;
use first_reach::Mode;
use schema_explanation::Topic;
use share_work::Plan;
use skipped_sources::CustomOptions;
use std::alloc::{AllocError, Global};

/// Which sources a run is over.
#[derive(Drop)]
pub struct Selection<'a> {
    /// The folder that has them. A source's name is its path from there.
    pub root: &'a str,
    /// The folders in which an import is looked for that the root doesn't have, in their order.
    pub includes: Vec<&'a str>,
    /// The folders below the root in which no source is looked for.
    pub excludes: Vec<&'a str>,
    /// The sources and the folders of sources that are named; none where all below the root are meant.
    pub files: Vec<&'a str>,
    pub custom_options: CustomOptions,
}

/// What a run answers from.
#[derive(Drop)]
pub enum Origin<'a> {
    /// Sources, which are compiled first.
    Sources(Selection<'a>),
    /// The `FileDescriptorSet` in a file of this path.
    Set(&'a str),
}

/// Where and how connections are served.
#[derive(Clone, Copy)]
pub struct Service<'a> {
    /// The address and the port to listen at.
    pub listen: &'a str,
    /// How many connections are served; without a count there is no end.
    pub connections: Option<u64>,
    /// How many are served at once.
    pub clients: u32,
    /// How many seconds a client may take; without them it may take as long as it likes.
    pub client_seconds: Option<u32>,
}

/// What one run is to do.
#[derive(Drop)]
pub enum Task<'a> {
    /// Compile sources.
    Compile {
        selection: Selection<'a>,
        plan: Plan,
        /// The file that the set goes to; without one it goes to the output.
        file: Option<&'a str>,
        /// The file that the rule goes to which says of what sources the set is made.
        dependencies: Option<&'a str>,
    },
    /// Tell the faults of sources.
    Check {
        selection: Selection<'a>,
        plan: Plan,
        form: Form,
    },
    /// Serve reflection by HTTP.
    Serve {
        origin: Origin<'a>,
        service: Service<'a>,
        plan: Plan,
        mode: Mode,
    },
    /// Answer the request body on the input.
    Answer {
        origin: Origin<'a>,
        plan: Plan,
        mode: Mode,
    },
    /// Describe the source on the input, under this file name.
    Describe {
        name: &'a str,
    },
    /// Explain a kind of fault or another line, or list all.
    Explain {
        topic: Option<Topic>,
    },
}

/// How much a run tells on standard error.
#[derive(Clone, Copy)]
pub enum Verbosity {
    /// The line of its failure, if it fails.
    Brief,
    /// What is known beside that line, too, and of a service a line for each request.
    Verbose,
}

/// What the words of a run ask for.
#[derive(Drop)]
pub struct Asked<'a> {
    pub task: Task<'a>,
    pub verbosity: Verbosity,
}

fn verbosity_of(matches: &ArgMatches<'_>) -> Verbosity
    ensures { IsVerbosity (found_of matches.now) result }
{
    if matches.get_flag("verbose") {
        Verbosity::Verbose
    } else {
        Verbosity::Brief
    }
}

fn mode_of(matches: &ArgMatches<'_>) -> Mode
    ensures { IsMode (found_of matches.now) result }
{
    if matches.get_flag("repeat") {
        Mode::Repeat
    } else {
        Mode::Once
    }
}

fn custom_options_of(matches: &ArgMatches<'_>) -> CustomOptions
    ensures { AreCustomOptions (found_of matches.now) result }
{
    if matches.get_flag("skip-custom-options") {
        CustomOptions::Skip
    } else {
        CustomOptions::Refuse
    }
}

/// The plan that the words ask for. The parser of the words lets no others through than there are plans.
fn plan_of(matches: &ArgMatches<'_>) -> Plan
    ensures { IsPlan (found_of matches.now) result }
{
    let workers = matches.get_one::<u32>("workers").unwrap_or(1);
    let cut = matches.get_one::<u32>("cut").unwrap_or(1);
    Plan::new(workers, cut).unwrap_or(Plan::single())
}

/// All values of an argument.
fn values_of<'a>(
    alloc: Global,
    matches: &ArgMatches<'a>,
    name: &str,
) -> Result<Vec<&'a str>, AllocError>
    ensures { IfOk result (λ values. map (λ s. s.now) values.items
        ≡ values_of (found_of matches.now) name.now) }
{
    match matches.get_strs(name) {
        Some(values) => Vec::from_slice(alloc, values),
        None => Ok(Vec::new(alloc)),
    }
}

fn selection_of<'a>(alloc: Global, matches: &ArgMatches<'a>) -> Result<Selection<'a>, AllocError>
    ensures { IfOk result (IsSelection (found_of matches.now)) }
{
    Ok(Selection {
        root: matches.get_str("root").unwrap_or(""),
        includes: values_of(alloc, matches, "include")?,
        excludes: values_of(alloc, matches, "exclude")?,
        files: values_of(alloc, matches, "files")?,
        custom_options: custom_options_of(matches),
    })
}

/// What is answered from: a set, if the words have one, or sources.
fn origin_of<'a>(alloc: Global, matches: &ArgMatches<'a>) -> Result<Origin<'a>, AllocError>
    ensures { IfOk result (IsOrigin (found_of matches.now)) }
{
    match matches.get_str("set") {
        Some(set) => Ok(Origin::Set(set)),
        None => Ok(Origin::Sources(selection_of(alloc, matches)?)),
    }
}

/// A mistake in the words, as `clap` tells it.
fn mistake(alloc: Global, kind: ErrorKind, said: &str) -> Result<Error, AllocError> {
    let mut command = whole_command(alloc)?;
    command.error(kind, said)
}

/// What is said of a line that names no topic.
fn unknown_topic(alloc: Global, line: &str) -> Result<Error, AllocError> {
    let said = match Topic::nearest(alloc, line)? {
        Some(near) => format!(in alloc;
            "nothing is called '{line}'; a similar name is '{}'",
            near.name()
        )?,
        None => format!(in alloc; "nothing is called '{line}'; `explain` alone lists all")?,
    };
    mistake(alloc, ErrorKind::InvalidValue, said.as_str())
}

/// The topic of the words behind `explain`, which are one line and name it at their end.
fn topic_of(alloc: Global, matches: &ArgMatches<'_>) -> Result<Option<Topic>, Error> {
    let words = matches.get_strs("words").unwrap_or(&[]);
    let Some(line) = words.last() else {
        return Ok(None);
    };
    match Topic::named(line) {
        Some(topic) => Ok(Some(topic)),
        None => Err(unknown_topic(alloc, line)?),
    }
}

/// The file of the words, of which `-` is none.
fn file_in<'a>(matches: &ArgMatches<'a>) -> Option<&'a str>
    ensures { option_map (λ s. s.now) result ≡ file_of (first_value (found_of matches.now) (codes "output")) }
{
    match matches.get_str("output") {
        Some("-") => None,
        file => file,
    }
}

/// The form of `check`. The parser of the words lets no other names through.
fn form_of(matches: &ArgMatches<'_>) -> Form
    ensures { result ≡ form_named (first_value (found_of matches.now) (codes "format")) }
{
    match matches.get_str("format") {
        Some("gcc") => Form::Gcc,
        Some("github") => Form::Github,
        Some("json") => Form::Json,
        _ => Form::Text,
    }
}

/// How many connections are asked for, if they are counted.
fn connections_in(matches: &ArgMatches<'_>) -> Option<u64>
    ensures { IsCount (found_of matches.now) (codes "connections") 64 result }
{
    matches.get_one::<u64>("connections")
}

/// How many seconds a client has, if they are limited.
fn client_seconds_in(matches: &ArgMatches<'_>) -> Option<u32>
    ensures { IsCount (found_of matches.now) (codes "client-seconds") 32 result }
{
    matches.get_one::<u32>("client-seconds")
}

/// The address and the port to listen at.
fn listen_in<'a>(matches: &ArgMatches<'a>) -> &'a str
    ensures { result.now ≡ value_of (found_of matches.now) (codes "listen") }
{
    matches.get_str("listen").unwrap_or("")
}

/// Where and how the words ask to serve.
fn service_of<'a>(matches: &ArgMatches<'a>) -> Service<'a>
    ensures { IsService (found_of matches.now) result }
{
    Service {
        listen: listen_in(matches),
        connections: connections_in(matches),
        clients: matches.get_one::<u32>("clients").unwrap_or(1),
        client_seconds: client_seconds_in(matches),
    }
}

/// The task of a command, by its name and what was found in the words behind it.
fn task_named<'a>(
    alloc: Global,
    name: &str,
    matches: &ArgMatches<'a>,
) -> Result<Option<Task<'a>>, Error>
    ensures { IfOk result (λ task. IfSome task (IsTaskNamed name.now (found_of matches.now))) }
{
    let task = match name {
        "compile" => Task::Compile {
            selection: selection_of(alloc, matches)?,
            plan: plan_of(matches),
            file: file_in(matches),
            dependencies: matches.get_str("dependency_out"),
        },
        "check" => Task::Check {
            selection: selection_of(alloc, matches)?,
            plan: plan_of(matches),
            form: form_of(matches),
        },
        "serve" => Task::Serve {
            origin: origin_of(alloc, matches)?,
            service: service_of(matches),
            plan: plan_of(matches),
            mode: mode_of(matches),
        },
        "answer" => Task::Answer {
            origin: origin_of(alloc, matches)?,
            plan: plan_of(matches),
            mode: mode_of(matches),
        },
        "describe" => Task::Describe {
            name: matches.get_str("name").unwrap_or(""),
        },
        "explain" => Task::Explain {
            topic: topic_of(alloc, matches)?,
        },
        _ => return Ok(None),
    };
    Ok(Some(task))
}

/// What was found in the words, if they name a command.
fn asked_in<'a>(alloc: Global, matches: &ArgMatches<'a>) -> Result<Option<Asked<'a>>, Error>
    ensures { IfOk result (λ asked. IfSome asked (IsAsked matches.now)) }
{
    let Some((name, found)) = matches.subcommand() else {
        return Ok(None);
    };
    let Some(task) = task_named(alloc, name, found)? else {
        return Ok(None);
    };
    let verbosity = verbosity_of(found);
    Ok(Some(Asked { task, verbosity }))
}

/// What `clap` finds in the words.
fn matches_of<'a>(alloc: Global, words: &'a [&'a str]) -> Result<ArgMatches<'a>, Error> {
    let mut command = whole_command(alloc)?;
    command.try_get_matches_from_mut(words)
}

/// What the words ask for, whose first is the program's name, or `clap`'s text for the user.
pub fn asked_of<'a>(alloc: Global, words: &'a [&'a str]) -> Result<Asked<'a>, Error>
    ensures { IfOk result (λ asked. (matches : ArgMatches) × IsAsked matches asked) }
{
    let matches = matches_of(alloc, words)?;
    match asked_in(alloc, &matches)? {
        Some(asked) => Ok(asked),
        None => Err(mistake(alloc, ErrorKind::MissingSubcommand, "no command was given")?),
    }
}
