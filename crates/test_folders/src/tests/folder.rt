//! What is read of folders of the system, compared with what was put into them by hand.

use proto_base::{Limit, Limits};
use source_folder::{
    FolderFault, FolderTrouble, NamedText, listed_text, read_folder, read_source, source_names,
    sources_in,
};
use std::alloc::{AllocError, AllocGlobal, Global};
use std::fs;
use std::os::unix::fs::symlink;
use std::process::Abort;
use std::rt::Files;

/// Puts a text behind what is shown.
fn put_text(shown: &mut String, text: &[u8]) -> Result<(), AllocError> {
    shown.push('=')?;
    for byte in text {
        shown.push(char::from(*byte))?;
    }
    shown.push(';')
}

/// Puts a source's name and text behind what is shown.
fn put_source(shown: &mut String, source: &NamedText) -> Result<(), AllocError> {
    shown.push_str(source.name.as_str())?;
    put_text(shown, &source.text)
}

/// The names and texts of sources.
fn shown(alloc: Global, sources: &[NamedText]) -> Result<String, AllocError> {
    let mut shown = String::new(alloc);
    for source in sources {
        put_source(&mut shown, source)?;
    }
    Ok(shown)
}

fn name_of(fault: &FolderFault) -> &'static str {
    match fault {
        FolderFault::Listing => "Listing",
        FolderFault::Reading => "Reading",
        FolderFault::NoMemory => "NoMemory",
    }
}

/// The names and texts that are read of a folder, or the fault.
fn read<R: Files + AllocGlobal>(rt: &R, root: &str, limits: &Limits) -> Result<String, AllocError> {
    match read_folder(rt, root, limits) {
        Ok(sources) => shown(rt.alloc(), &sources),
        Err(fault) => String::from_str(rt.alloc(), name_of(&fault)),
    }
}

/// A fault, and the entry and what is the matter with it.
fn trouble_shown(alloc: Global, trouble: &FolderTrouble) -> Result<String, AllocError> {
    let fault = name_of(&trouble.fault);
    format!(in alloc; "{fault} {trouble}")
}

/// The names and texts that are read of a folder, or the trouble.
pub(super) fn told<R: Files + AllocGlobal>(
    rt: &R,
    root: &str,
    limits: &Limits,
) -> Result<String, AllocError> {
    match sources_in(rt, root, limits) {
        Ok(sources) => shown(rt.alloc(), &sources),
        Err(trouble) => trouble_shown(rt.alloc(), &trouble),
    }
}

/// Names, a `;` behind each.
fn names_shown(alloc: Global, names: &[String]) -> Result<String, AllocError> {
    let mut shown = String::new(alloc);
    for name in names {
        shown.push_str(name.as_str())?;
        shown.push(';')?;
    }
    Ok(shown)
}

/// The names of the sources of a folder, or the trouble.
fn names<R: Files + AllocGlobal>(rt: &R, root: &str) -> Result<String, AllocError> {
    match source_names(rt, root) {
        Ok(names) => names_shown(rt.alloc(), &names),
        Err(trouble) => trouble_shown(rt.alloc(), &trouble),
    }
}

/// A text behind `=`.
fn text_shown(alloc: Global, text: &[u8]) -> Result<String, AllocError> {
    let mut shown = String::new(alloc);
    put_text(&mut shown, text)?;
    Ok(shown)
}

/// What is read of a listed source, its name behind a root and `>`: its text behind `=`, or the trouble.
fn listed<R: Files + AllocGlobal>(
    rt: &R,
    path: &str,
    limits: &Limits,
) -> Result<String, AllocError> {
    let (root, name) = path.split_once('>').unwrap_or((path, ""));
    match listed_text(rt, root, name, limits) {
        Ok(text) => text_shown(rt.alloc(), &text),
        Err(trouble) => trouble_shown(rt.alloc(), &trouble),
    }
}

/// What is read of the source of a name, behind a root and `>`: its text behind `=`, `none`, or the trouble.
fn source<R: Files + AllocGlobal>(
    rt: &R,
    path: &str,
    limits: &Limits,
) -> Result<String, AllocError> {
    let (root, name) = path.split_once('>').unwrap_or((path, ""));
    match read_source(rt, root, name, limits) {
        Ok(Some(text)) => text_shown(rt.alloc(), &text),
        Ok(None) => String::from_str(rt.alloc(), "none"),
        Err(trouble) => trouble_shown(rt.alloc(), &trouble),
    }
}

/// What is done to folders: a `folder`, a `file` of a text or a `link` to a path is made there; a root is `read` with so
/// many bytes of a file at most, which gives this text or fault, or `told`, which tells the trouble too, or its `names` are
/// listed; or a `source` is read, or one that is `listed`.
#[derive(Clone, Copy)]
struct Step {
    action: &'static str,
    path: &'static str,
    most: u64,
    text: &'static str,
}

/// A line's first field, and what comes behind it.
pub(super) fn field<R: Abort>(rt: &R, line: &'static str) -> (&'static str, &'static str) {
    line.split_once('|').expect(rt, "a field")
}

fn step_of<R: Abort>(rt: &R, line: &'static str) -> Step {
    let (action, rest) = field(rt, line);
    let (path, rest) = field(rt, rest);
    let (most, text) = field(rt, rest);
    let most = most.parse().expect(rt, "a number");
    Step {
        action,
        path,
        most,
        text,
    }
}

/// What is read of a root or of a source.
fn found<R: Files + AllocGlobal>(
    rt: &R,
    step: &Step,
    limits: &Limits,
) -> Result<String, AllocError> {
    match step.action {
        "read" => read(rt, step.path, limits),
        "told" => told(rt, step.path, limits),
        "names" => names(rt, step.path),
        "listed" => listed(rt, step.path, limits),
        _ => source(rt, step.path, limits),
    }
}

/// Whether what is read is what is wanted.
fn is_read<R: Files + AllocGlobal + Abort>(rt: &R, step: &Step) -> bool {
    let limits = Limits::standard().lowered(Limit::FileBytes, step.most);
    let found = found(rt, step, &limits.expect(rt, "limits"));
    found.expect(rt, "memory").as_str() == step.text
}

/// Makes a folder, a file or a link, or compares what is read, and tells whether all went well.
fn is_taken<R: Files + AllocGlobal + Abort>(rt: &R, step: &Step) -> bool {
    match step.action {
        "folder" => fs::create_dir_all(rt, step.path).is_ok(),
        "file" => fs::write(rt, step.path, step.text).is_ok(),
        "link" => symlink(rt, step.text, step.path).is_ok(),
        _ => is_read(rt, step),
    }
}

/// Takes a line's step.
fn take<R: Files + AllocGlobal + Abort>(rt: &R, line: &'static str) {
    let step = step_of(rt, line);
    assert!(rt; is_taken(rt, &step), "{line}");
}

/// A root is a folder that is there. Links are followed, but not to a folder in which they lie. What cannot be listed comes
/// before what cannot be read.
static STEPS: &str = "\
folder|test_folder/tree/a/b|0|\n\
folder|test_folder/tree/empty|0|\n\
folder|test_folder/tree/folder.proto|0|\n\
file|test_folder/tree/z.proto|0|last\n\
file|test_folder/tree/a.proto|0|before a slash\n\
file|test_folder/tree/a/y.proto|0|\n\
file|test_folder/tree/a/b/x.proto|0|deep\n\
file|test_folder/tree/a/b/x.protos|0|none\n\
file|test_folder/tree/a/proto|0|none\n\
file|test_folder/tree/.proto|0|no stem\n\
file|test_folder/tree/B.PROTO|0|none\n\
file|test_folder/tree/folder.proto/in.proto|0|inside\n\
file|test_folder/tree/readme.md|0|none\n\
read|test_folder/tree|4194304|.proto=no stem;a.proto=before a slash;a/b/x.proto=deep;a/y.proto=;folder.proto/in.proto=inside;z.proto=last;\n\
read|test_folder/tree/|4194304|.proto=no stem;a.proto=before a slash;a/b/x.proto=deep;a/y.proto=;folder.proto/in.proto=inside;z.proto=last;\n\
read|./test_folder/tree|4194304|.proto=no stem;a.proto=before a slash;a/b/x.proto=deep;a/y.proto=;folder.proto/in.proto=inside;z.proto=last;\n\
folder|test_folder/long|0|\n\
file|test_folder/long/3.proto|0|abc\n\
file|test_folder/long/4.proto|0|abcd\n\
file|test_folder/long/5.proto|0|abcde\n\
file|test_folder/long/6.proto|0|abcdef\n\
read|test_folder/long|4|3.proto=abc;4.proto=abcd;5.proto=abcde;6.proto=abcde;\n\
read||4194304|Listing\n\
read|test_folder/none|4194304|Listing\n\
read|test_folder/long/3.proto|4194304|Listing\n\
told||4194304|Listing : it is not there\n\
names|test_folder/tree|4194304|.proto;a.proto;a/b/x.proto;a/y.proto;folder.proto/in.proto;z.proto;\n\
names|test_folder/none|4194304|Listing test_folder/none: it is not there\n\
listed|test_folder/tree>a/b/x.proto|4194304|=deep;\n\
listed|test_folder/long>6.proto|4|=abcde;\n\
listed|test_folder/long>7.proto|4|Reading test_folder/long/7.proto: it is a link that leads nowhere\n\
told|test_folder/none|4194304|Listing test_folder/none: it is not there\n\
told|test_folder/long/3.proto|4194304|Listing test_folder/long/3.proto: it is no folder\n\
told|test_folder/long/3.proto/a|4194304|Listing test_folder/long/3.proto/a: it is no folder\n\
source|test_folder/long>3.proto|4|=abc;\n\
source|test_folder/long>6.proto|4|=abcde;\n\
source|test_folder/long>7.proto|4|none\n\
source|test_folder/long>3.proto/a|4|none\n\
source|test_folder>long|4|none\n\
source|test_folder>long/3.proto|4|=abc;\n\
source|test_folder>long/../long/3.proto|4|none\n\
source|test_folder>./long/3.proto|4|none\n\
source|test_folder>long//3.proto|4|none\n\
source|test_folder>/long/3.proto|4|none\n\
source|test_folder>long/3.proto/|4|none\n\
source|test_folder/long>|4|none\n\
source|/dev>null|4|Reading /dev/null: it is a device or a pipe\n\
source|/dev>fd/../null|4|none\n\
folder|test_folder/root|0|\n\
file|test_folder/root/a.proto|0|a\n\
read|test_folder/root|4194304|a.proto=a;\n\
folder|test_folder/links/in/to|0|\n\
file|test_folder/links/out|0|text\n\
file|test_folder/links/in/to/b.proto|0|b\n\
link|test_folder/links/in/a.proto|0|../out\n\
link|test_folder/links/in/folder|0|to\n\
link|test_folder/links/in/lost|0|nowhere\n\
link|test_folder/links/in/itself|0|itself\n\
read|test_folder/links/in|4194304|a.proto=text;folder/b.proto=b;to/b.proto=b;\n\
source|test_folder/links/in>a.proto|4194304|=text;\n\
source|test_folder/links/in>itself|4194304|none\n\
source|test_folder/links/in>folder/b.proto|4194304|=b;\n\
link|test_folder/links/in/lost.proto|0|nowhere\n\
names|test_folder/links/in|4194304|a.proto;folder/b.proto;lost.proto;to/b.proto;\n\
listed|test_folder/links/in>folder|4194304|Reading test_folder/links/in/folder: it is a link that leads nowhere\n\
read|test_folder/links/in|4194304|Reading\n\
told|test_folder/links/in|4194304|Reading test_folder/links/in/lost.proto: it is a link that leads nowhere\n\
source|test_folder/links/in>lost.proto|4194304|none\n\
link|test_folder/links/in/to/null.proto|0|/dev/null\n\
told|test_folder/links/in/to|4194304|Reading test_folder/links/in/to/null.proto: it is a device or a pipe\n\
link|test_folder/links/in/to/up|0|..\n\
read|test_folder/links/in|4194304|Listing\n\
folder|test_folder/two|0|\n\
file|test_folder/two/a.proto|0|a\n\
link|test_folder/two/me|0|.\n\
link|test_folder/two/me_too|0|../two\n\
read|test_folder/two|4194304|Listing\n\
folder|test_folder/shared/of/a|0|\n\
folder|test_folder/shared/of/b/c|0|\n\
file|test_folder/shared/of/b/c/c.proto|0|c\n\
link|test_folder/shared/of/a/b|0|../b\n\
link|test_folder/shared/of/a/b_again|0|../b\n\
read|test_folder/shared/of|4194304|a/b/c/c.proto=c;a/b_again/c/c.proto=c;b/c/c.proto=c;\n\
link|test_folder/shared/of/b/c/a|0|../../a\n\
read|test_folder/shared/of|4194304|Listing\n\
folder|test_folder/above/root/in|0|\n\
link|test_folder/above/root/in/up|0|../..\n\
told|test_folder/above/root|4194304|Listing test_folder/above/root/in/up/root: a link that leads to a folder in which it lies";

#[test]
fn folders_are_read(rt: HostRuntime) {
    take_all(&rt);
}

/// Takes all steps in a new folder.
fn take_all<R: Files + AllocGlobal + Abort>(rt: &R) {
    let _ = fs::remove_dir_all(rt, "test_folder");
    for line in STEPS.lines() {
        take(rt, line);
    }
    assert!(rt; fs::remove_dir_all(rt, "test_folder").is_ok());
}

/// A path of so many folders inside one another, below a root.
fn deep_path<R: AllocGlobal + Abort>(rt: &R, root: &str, depth: u32) -> String {
    let mut path = String::from_str(rt.alloc(), root).expect(rt, "memory");
    for _ in 0..depth {
        path.push_str("/d").expect(rt, "memory");
    }
    path
}

/// Makes so many folders inside one another, and a file in the last one.
fn make_deep_file<R: Files + AllocGlobal + Abort>(rt: &R, root: &str, depth: u32) {
    let mut path = deep_path(rt, root, depth);
    assert!(rt; fs::create_dir_all(rt, path.as_str()).is_ok());
    path.push_str("/f.proto").expect(rt, "memory");
    assert!(rt; fs::write(rt, path.as_str(), "text").is_ok());
}

/// Whether a file in the 64th folder is read.
fn is_deep_file_read<R: Files + AllocGlobal + Abort>(rt: &R, root: &str) -> bool {
    make_deep_file(rt, root, 64);
    let shown = read(rt, root, &Limits::standard()).expect(rt, "memory");
    shown.ends_with("d/d/f.proto=text;")
}

/// Whether a 65th folder is refused.
fn is_deeper_folder_refused<R: Files + AllocGlobal + Abort>(rt: &R, root: &str) -> bool {
    let path = deep_path(rt, root, 65);
    assert!(rt; fs::create_dir_all(rt, path.as_str()).is_ok());
    let shown = read(rt, root, &Limits::standard()).expect(rt, "memory");
    shown.as_str() == "Listing"
}

/// Reads folders inside one another, as many as there may be, and one more.
fn read_deep_folders<R: Files + AllocGlobal + Abort>(rt: &R, root: &str) {
    let _ = fs::remove_dir_all(rt, root);
    assert!(rt; is_deep_file_read(rt, root));
    assert!(rt; is_deeper_folder_refused(rt, root));
    assert!(rt; fs::remove_dir_all(rt, root).is_ok());
}

#[test]
fn a_folder_is_at_most_64_folders_deep(rt: HostRuntime) {
    read_deep_folders(&rt, "test_folder_deep");
}
