//! What goes to a file. Where the system lets it be, the file is written whole or not at all: under a name beside it, which
//! then takes its place.

ghost use Rattle.std.specs.Prelude.{◌≡◌, ◌-◌, ◌<◌, ◌^◌, ◌⊎◌, IfErr, Some};
ghost use Rattle.proto_compilation.specs.Compilation.{set_of};
ghost use Rattle.schema_commands.specs.Runs.{IsSetRun};
ghost use Rattle.schema_failure.specs.Faults.{IsOfDevice};
ghost use Rattle.schema_failure.specs.declared.failure.Device.TheVariants as devices;
ghost use Rattle.schema_failure.specs.declared.failure.Failure.TheVariants as failures;

use crate::set_writing::SetWriter;
use counted_io::CountedWrite;
use schema_failure::{Device, Failure};
use std::alloc::AllocGlobal;
use std::fs::{self, File, FileType, Metadata, OpenFile};
use std::io::{self, ErrorKind, Write};
use std::os::unix::fs::{MetadataExt, OpenOptionsExt, chown};
use std::path::{Path, PathBuf};
use std::random::RandomSource;
use std::rt::Files;

/// How many links a path may lead through, as for the system.
const MOST_LINKS: u32 = 40;

/// The mode of a file that only its owner reads and writes.
const PRIVATE: u32 = 0o600;

/// What is written to a file.
pub(crate) trait Contents {
    /// Writes all of it, and tells how many bytes it has.
    fn put<W: Write>(&mut self, file: &mut W) -> io::Result<u64>;
}

impl Contents for SetWriter<'_> {
    fn put<W: Write>(&mut self, file: &mut W) -> io::Result<u64> {
        self.put_files(file)
    }
}

impl Contents for &str {
    fn put<W: Write>(&mut self, file: &mut W) -> io::Result<u64> {
        file.write_all(self.as_bytes())?;
        Ok(self.len() as u64)
    }
}

/// What a path leads to.
#[derive(Drop)]
enum Destination {
    /// The standard output of this process.
    StandardOutput,
    /// A terminal, a pipe, /dev/null: what is written to where it stands.
    Device,
    /// The file at this path, which is no link.
    File(PathBuf),
    /// Nothing yet, at this path, which is no link.
    Free(PathBuf),
}

fn is_link<R: Files>(rt: &R, path: Path<'_>) -> bool {
    fs::symlink_metadata(rt, path).is_ok_and(|found| found.is_symlink())
}

/// The folder that a path is in, by its own path from the root.
fn folder_of<R>(rt: &R, path: Path<'_>) -> io::Result<PathBuf>
where
    R: Files + AllocGlobal,
{
    match path.parent() {
        Some(folder) if !folder.as_str().is_empty() => fs::canonicalize(rt, folder),
        _ => fs::canonicalize(rt, "."),
    }
}

/// Whether a link is one by which the system shows what a process has open. What it seems to name may be gone, or be
/// written to from some place on.
fn is_of_process<R>(rt: &R, link: Path<'_>) -> io::Result<bool>
where
    R: Files + AllocGlobal,
{
    Ok(folder_of(rt, link)?.starts_with("/proc"))
}

/// Whether such a link is that of this process's standard output.
fn is_standard_output<R>(rt: &R, link: Path<'_>) -> io::Result<bool>
where
    R: Files + AllocGlobal,
{
    let descriptors = fs::canonicalize(rt, "/proc/self/fd")?;
    Ok(link.file_name() == Some("1") && folder_of(rt, link)? == descriptors)
}

/// The path that a link names.
fn target_of<R>(rt: &R, link: Path<'_>) -> io::Result<PathBuf>
where
    R: Files + AllocGlobal,
{
    let target = fs::read_link(rt, link)?;
    match link.parent() {
        Some(folder) => Ok(folder.join(rt.alloc(), target)?),
        None => Ok(target),
    }
}

/// Where a path leads by links, up to one that shows what a process has open.
fn follow_links<R>(rt: &R, path: &str) -> io::Result<PathBuf>
where
    R: Files + AllocGlobal,
{
    let mut followed = PathBuf::from_str(rt.alloc(), path)?;
    for _ in 0..MOST_LINKS {
        if !is_link(rt, followed.as_path()) || is_of_process(rt, followed.as_path())? {
            return Ok(followed);
        }
        followed = target_of(rt, followed.as_path())?;
    }
    Err(io::Error::from(ErrorKind::FilesystemLoop))
}

/// What stands at a path, if anything does. The system says it, which may refuse to follow a link of another user. A
/// folder is refused.
fn look_at<R: Files>(rt: &R, path: &str) -> io::Result<Option<FileType>> {
    match fs::metadata(rt, path) {
        Ok(found) if found.is_dir() => Err(io::Error::from(ErrorKind::IsADirectory)),
        Ok(found) => Ok(Some(found.file_type())),
        Err(error) if error.kind() == ErrorKind::NotFound => Ok(None),
        Err(error) => Err(error),
    }
}

/// What is behind a link that shows what a process has open. A file is refused, but for standard output: from where on it
/// is written only its own descriptor knows.
fn destination_of_open<R>(
    rt: &R,
    link: Path<'_>,
    found: Option<FileType>,
) -> io::Result<Destination>
where
    R: Files + AllocGlobal,
{
    if is_standard_output(rt, link)? {
        return Ok(Destination::StandardOutput);
    }
    match found {
        Some(found) if !found.is_file() => Ok(Destination::Device),
        _ => Err(io::Error::from(ErrorKind::Unsupported)),
    }
}

/// What a path leads to.
fn destination_of<R>(rt: &R, path: &str) -> io::Result<Destination>
where
    R: Files + AllocGlobal,
{
    let found = look_at(rt, path)?;
    let followed = follow_links(rt, path)?;
    if is_link(rt, followed.as_path()) {
        return destination_of_open(rt, followed.as_path(), found);
    }
    match found {
        None => Ok(Destination::Free(followed)),
        Some(found) if found.is_file() => Ok(Destination::File(followed)),
        Some(_) => Ok(Destination::Device),
    }
}

/// A path beside another that no other run takes. The name is short, so that there is room for it wherever there is for
/// that of the file.
fn path_beside<R>(rt: &R, path: Path<'_>) -> io::Result<PathBuf>
where
    R: RandomSource + AllocGlobal,
{
    let Some(folder) = path.parent() else {
        return Err(io::Error::from(ErrorKind::InvalidInput));
    };
    let mut random = [0u8; 8];
    rt.fill_bytes(&mut random)?;
    let number = u64::from_ne_bytes(random);
    let name = format!(in rt.alloc(); ".schema_server.{number:016x}.unfinished")?;
    Ok(folder.join(rt.alloc(), name)?)
}

/// Makes a file that is not there yet. One that is to be as another is nobody else's until it is.
fn make_new<R>(rt: &R, path: Path<'_>, kept: Option<&Metadata>) -> io::Result<R::File>
where
    R: Files,
{
    let mut options = File::options();
    options.write(true).create_new(true);
    if kept.is_some() {
        options.mode(PRIVATE);
    }
    options.open(rt, path)
}

/// Writes a new file at this path, which gets the owner, the group and the mode of another, and waits until the disk has it.
fn fill<R, C>(
    rt: &R,
    path: Path<'_>,
    file: R::File,
    contents: &mut C,
    kept: Option<&Metadata>,
) -> io::Result<()>
where
    R: Files,
    C: Contents,
{
    let mut file = file;
    contents.put(&mut file)?;
    if let Some(kept) = kept {
        chown(rt, path, Some(kept.uid()), Some(kept.gid()))?;
        file.set_permissions(kept.permissions())?;
    }
    file.sync_all()
}

/// Puts a file in the place of what stands at a path, if anything does. Where that fails, nothing has changed.
fn replace<R, C>(
    rt: &R,
    path: Path<'_>,
    contents: &mut C,
    kept: Option<&Metadata>,
) -> io::Result<()>
where
    R: Files + RandomSource + AllocGlobal,
    C: Contents,
{
    let named = path_beside(rt, path)?;
    let beside = named.as_path();
    let file = make_new(rt, beside, kept)?;
    let placed = match fill(rt, beside, file, contents, kept) {
        Ok(()) => fs::rename(rt, beside, path),
        failed => failed,
    };
    if placed.is_err() {
        let _ = fs::remove_file(rt, beside);
    }
    placed
}

/// Whether an error says that no file may be made in a folder, or none take another's place or have its owner: and not
/// that there is no room.
fn is_refusal(error: &io::Error) -> bool {
    matches!(
        error.kind(),
        ErrorKind::PermissionDenied
            | ErrorKind::ReadOnlyFilesystem
            | ErrorKind::ResourceBusy
            | ErrorKind::CrossesDevices
            | ErrorKind::InvalidFilename
            | ErrorKind::InvalidInput
            | ErrorKind::Unsupported
    )
}

/// Writes over what a file has.
fn write_over<F, C>(file: &mut F, contents: &mut C) -> io::Result<()>
where
    F: Write + OpenFile,
    C: Contents,
{
    let len = contents.put(file)?;
    file.set_len(len)?;
    file.sync_all()
}

/// Gives a file other bytes. It is opened first, since a file that may not be written is not replaced either.
fn rewrite<R, C>(rt: &R, path: Path<'_>, contents: &mut C) -> io::Result<()>
where
    R: Files + RandomSource + AllocGlobal,
    C: Contents,
{
    let mut file = File::options().write(true).open(rt, path)?;
    let kept = file.metadata()?;
    match replace(rt, path, contents, Some(&kept)) {
        Err(error) if is_refusal(&error) => write_over(&mut file, contents),
        replaced => replaced,
    }
}

fn write_device<R, C>(rt: &R, path: &str, contents: &mut C) -> io::Result<()>
where
    R: Files,
    C: Contents,
{
    let mut device = File::options().write(true).open(rt, path)?;
    contents.put(&mut device)?;
    Ok(())
}

/// Writes to where a path leads, which is not the standard output.
fn write_to<R, C>(rt: &R, path: &str, destination: Destination, contents: &mut C) -> io::Result<()>
where
    R: Files + RandomSource + AllocGlobal,
    C: Contents,
{
    match destination {
        Destination::StandardOutput => Err(io::Error::from(ErrorKind::Unsupported)),
        Destination::Device => write_device(rt, path, contents),
        Destination::File(file) => rewrite(rt, file.as_path(), contents),
        Destination::Free(free) => replace(rt, free.as_path(), contents, None),
    }
}

/// Writes a set where a path leads, which may be to the writer.
pub(crate) fn write_whole<R, O>(
    rt: &R,
    path: &str,
    set: &mut SetWriter<'_>,
    writer: &mut O,
) -> Result<(), Failure>
where
    R: Files + RandomSource + AllocGlobal,
    O: CountedWrite,
    requires { (O.writes writer.old).failures < 2 ^ 64 - 1 }
    ensures { IsSetRun (Some path.entry) (O.writes writer.old) (O.writes writer.new)
        (set_of set.old.compiled.now.files set.old.compiled.now.links) result }
{
    let written = match destination_of(rt, path) {
        Ok(Destination::StandardOutput) => return set.write(writer),
        Ok(destination) => write_to(rt, path, destination, set),
        Err(error) => Err(error),
    };
    match written {
        Ok(()) => Ok(()),
        Err(error) => Err(Failure::of_error(Device::Output, error)),
    }
}

/// Writes the rule of a set where a path leads. The standard output is refused, since a set may go there.
pub(crate) fn write_rule<R>(rt: &R, path: &str, rule: &str) -> Result<(), Failure>
where
    R: Files + RandomSource + AllocGlobal,
    ensures { IfErr result (λ f. IsOfDevice devices.Dependencies f ⊎ (f ≡ failures.NoMemory)) }
{
    let mut contents = rule;
    let written = match destination_of(rt, path) {
        Ok(destination) => write_to(rt, path, destination, &mut contents),
        Err(error) => Err(error),
    };
    match written {
        Ok(()) => Ok(()),
        Err(error) => Err(Failure::of_error(Device::Dependencies, error)),
    }
}
