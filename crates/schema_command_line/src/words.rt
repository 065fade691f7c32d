//! The words that the command line takes, as `clap` is told them.

use clap::builder::ValueParser;
use clap::{Arg, ArgAction, Command, value_parser};
use std::alloc::{AllocError, Global};

/// The version that `--version` prints: the program's, and the logic in which it is proved, which several kits have.
static VERSION: &str = "1.2.0, logic dac8208d650f15bf";

/// What `--help` says last.
static STATUSES: &str =
    "Exit status: 0 done; 1 the sources have a fault; 2 the command line is wrong; 3 a folder, a file or a connection failed;
4 no memory. `schema_server explain` lists the lines that are printed, and `explain LINE` says what one means.";

fn root_argument<'a>(alloc: Global) -> Arg<'a> {
    Arg::new(alloc, "root")
        .long("root")
        .value_name("DIR")
        .required(true)
        .help(
            "the folder: every file below it that ends in .proto is a source, named by its path from there",
        )
}

/// The root of a command that takes a set in its place.
fn root_or_set_argument<'a>(alloc: Global) -> Result<Arg<'a>, AllocError> {
    root_argument(alloc)
        .required(false)
        .required_unless_present("set")
}

fn set_argument<'a>(alloc: Global) -> Result<Arg<'a>, AllocError> {
    let set = Arg::new(alloc, "set").long("set").value_name("FILE").help(
        "in place of sources, the files of this FileDescriptorSet, as protoc --include_imports or buf build write it",
    );
    set.conflicts_with("root")?
        .conflicts_with("include")?
        .conflicts_with("exclude")?
        .conflicts_with("skip-custom-options")?
        .conflicts_with("files")
}

fn include_argument<'a>(alloc: Global) -> Arg<'a> {
    Arg::new(alloc, "include")
        .long("include")
        .value_name("DIR")
        .action(ArgAction::Append)
        .help(
            "a folder in which an import is looked for that the root doesn't have; any number of times",
        )
}

fn exclude_argument<'a>(alloc: Global) -> Arg<'a> {
    Arg::new(alloc, "exclude")
        .long("exclude")
        .value_name("DIR")
        .action(ArgAction::Append)
        .help(
            "a folder below the root in which no source is looked for; any number of times. What is imported from there is found",
        )
}

fn skip_argument<'a>(alloc: Global) -> Arg<'a> {
    Arg::new(alloc, "skip-custom-options")
        .long("skip-custom-options")
        .action(ArgAction::SetTrue)
        .help(
            "take sources as if custom options, extensions and imports of what is not there were not in them",
        )
}

fn files_argument<'a>(alloc: Global) -> Arg<'a> {
    Arg::new(alloc, "files")
        .value_name("FILE")
        .num_args(0..)
        .help(
            "take these files, or all below these folders, and what they import; without one all below the root",
        )
}

/// An argument of this name, a number from 1 to `most`.
fn count_argument<'a>(
    alloc: Global,
    name: &'a str,
    most: i64,
    default: &'a str,
    help: &'a str,
) -> Arg<'a> {
    Arg::new(alloc, name)
        .long(name)
        .value_name("N")
        .default_value(default)
        .value_parser(value_parser!(u32).range(1..=most))
        .help(help)
}

/// The command with one more argument, if there was memory for all so far.
fn with_argument<'a>(
    command: Result<Command<'a>, AllocError>,
    argument: Arg<'a>,
) -> Result<Command<'a>, AllocError> {
    command?.arg(argument)
}

fn verbose_argument<'a>(alloc: Global) -> Arg<'a> {
    Arg::new(alloc, "verbose")
        .long("verbose")
        .action(ArgAction::SetTrue)
        .help(
            "tell on standard error what is known beside the line of a failure; serve has a line for each request, too",
        )
}

/// A command over sources, with the arguments that say which, of which this is the root, and by how many workers.
fn command_with_root<'a>(
    alloc: Global,
    name: &'a str,
    about: &'a str,
    root: Arg<'a>,
) -> Result<Command<'a>, AllocError> {
    let workers_help = "how many workers share the work, 1 to 64";
    let cut_help = "the most files that a worker takes at a time, 1 to 4096";
    let command = Command::new(alloc, name).about(about).arg(root);
    let command = with_argument(command, include_argument(alloc));
    let command = with_argument(command, exclude_argument(alloc));
    let command = with_argument(command, skip_argument(alloc));
    let workers = count_argument(alloc, "workers", 64, "4", workers_help);
    let command = with_argument(command, workers);
    let cut = count_argument(alloc, "cut", 4096, "16", cut_help);
    let command = with_argument(command, cut);
    let command = with_argument(command, verbose_argument(alloc));
    with_argument(command, files_argument(alloc))
}

/// A command over sources.
fn source_command<'a>(
    alloc: Global,
    name: &'a str,
    about: &'a str,
) -> Result<Command<'a>, AllocError> {
    command_with_root(alloc, name, about, root_argument(alloc))
}

/// A command over sources, or over a set.
fn answering_command<'a>(
    alloc: Global,
    name: &'a str,
    about: &'a str,
) -> Result<Command<'a>, AllocError> {
    let command = command_with_root(alloc, name, about, root_or_set_argument(alloc)?);
    with_argument(command, set_argument(alloc)?)
}

fn output_argument<'a>(alloc: Global) -> Arg<'a> {
    Arg::new(alloc, "output")
        .long("output")
        .value_name("FILE")
        .help("write the set to this file and not to standard output; a fault leaves it as it was")
}

fn dependency_argument<'a>(alloc: Global) -> Result<Arg<'a>, AllocError> {
    Arg::new(alloc, "dependency_out")
        .long("dependency_out")
        .value_name("FILE")
        .help(
            "write to this file a rule for make and ninja: the file of --output, and all sources of which it is made",
        )
        .requires_arg("output")
}

fn compile_command<'a>(alloc: Global) -> Result<Command<'a>, AllocError> {
    let about = "Compiles the proto3 sources below a folder and writes their FileDescriptorSet";
    let command = with_argument(
        source_command(alloc, "compile", about),
        output_argument(alloc),
    );
    with_argument(command, dependency_argument(alloc)?)
}

/// The forms of `check`, by their names.
static FORMS: [&str; 4] = ["text", "gcc", "github", "json"];

fn format_argument<'a>(alloc: Global) -> Arg<'a> {
    Arg::new(alloc, "format")
        .long("format")
        .value_name("FORM")
        .default_value("text")
        .value_parser(ValueParser::Names(&FORMS))
        .help(
            "how faults are written: for people, as compilers do, for a workflow of GitHub, or as JSON, one a line",
        )
}

fn check_command<'a>(alloc: Global) -> Result<Command<'a>, AllocError> {
    let about =
        "Tells the faults of the proto3 sources below a folder, each with its line, its meaning and its cure";
    with_argument(
        source_command(alloc, "check", about),
        format_argument(alloc),
    )
}

fn repeat_argument<'a>(alloc: Global) -> Arg<'a> {
    Arg::new(alloc, "repeat")
        .long("repeat")
        .action(ArgAction::SetTrue)
        .help("send the file that answers a request again with each reply to it")
}

fn answer_command<'a>(alloc: Global) -> Result<Command<'a>, AllocError> {
    let about =
        "Reads the request body of a gRPC-Web reflection stream from standard input and writes the response body";
    with_argument(
        answering_command(alloc, "answer", about),
        repeat_argument(alloc),
    )
}

fn listen_argument<'a>(alloc: Global) -> Arg<'a> {
    Arg::new(alloc, "listen")
        .long("listen")
        .value_name("ADDR:PORT")
        .required(true)
        .help("the address and the port to listen at, as 127.0.0.1:8080; port 0 takes a free one")
}

fn connections_argument<'a>(alloc: Global) -> Arg<'a> {
    Arg::new(alloc, "connections")
        .long("connections")
        .value_name("N")
        .value_parser(value_parser!(u64))
        .help("end after so many connections; without it the service goes on")
}

fn clients_argument<'a>(alloc: Global) -> Arg<'a> {
    let help = "how many clients are served at once, 1 to 1024";
    count_argument(alloc, "clients", 1024, "1", help)
}

fn client_seconds_argument<'a>(alloc: Global) -> Arg<'a> {
    Arg::new(alloc, "client-seconds")
        .long("client-seconds")
        .value_name("N")
        .value_parser(value_parser!(u32).range(1..=1_000_000))
        .help(
            "end a connection so many seconds after it was accepted, if its client has not sent a request or taken the answer by then",
        )
}

fn serve_command<'a>(alloc: Global) -> Result<Command<'a>, AllocError> {
    let about = "Serves gRPC reflection as gRPC-Web over HTTP/1.1";
    let command = answering_command(alloc, "serve", about);
    let command = with_argument(command, listen_argument(alloc));
    let command = with_argument(command, connections_argument(alloc));
    let command = with_argument(command, clients_argument(alloc));
    let command = with_argument(command, client_seconds_argument(alloc));
    with_argument(command, repeat_argument(alloc))
}

fn describe_command<'a>(alloc: Global) -> Result<Command<'a>, AllocError> {
    let name = Arg::new(alloc, "name")
        .value_name("NAME")
        .required(true)
        .help("the name of the file, as an import would write it");
    Command::new(alloc, "describe")
        .about(
            "Reads one proto3 source from standard input and prints its FileDescriptorProto in hexadecimal digits",
        )
        .arg(name)?
        .arg(verbose_argument(alloc))
}

fn explain_command<'a>(alloc: Global) -> Result<Command<'a>, AllocError> {
    let words = Arg::new(alloc, "words")
        .value_name("LINE")
        .num_args(0..)
        .help(
            "a kind of fault, or a whole line that was printed; without it all kinds and lines are listed",
        );
    Command::new(alloc, "explain")
        .about(
            "Prints what a fault or another line means, the smallest source that has it, and its cure",
        )
        .arg(words)?
        .arg(verbose_argument(alloc))
}

/// The command with one of its own commands, if there was memory for both.
fn with_command<'a>(
    command: Result<Command<'a>, AllocError>,
    added: Result<Command<'a>, AllocError>,
) -> Result<Command<'a>, AllocError> {
    let added = added?;
    command?.subcommand(added)
}

/// The program, with its commands.
pub(crate) fn whole_command<'a>(alloc: Global) -> Result<Command<'a>, AllocError> {
    let command = Command::new(alloc, "schema_server")
        .about(
            "A schema server for Protocol Buffers: compiles proto3 sources to descriptors and answers reflection",
        )
        .after_help(STATUSES)
        .version(VERSION)
        .subcommand_required(true);
    let command = with_command(Ok(command), compile_command(alloc));
    let command = with_command(command, check_command(alloc));
    let command = with_command(command, serve_command(alloc));
    let command = with_command(command, answer_command(alloc));
    let command = with_command(command, describe_command(alloc));
    with_command(command, explain_command(alloc))
}
