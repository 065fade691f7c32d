//! Given sources, what stands on a shelf, and the sources that a run has of them, put together by hand.

ghost use Rattle.std.specs.Prelude.{IfOk};
ghost use Rattle.source_folder.specs.Folder.{names_of};
ghost use Rattle.proto_base.specs.NameOrder.{NamesRise};

use proto_base::Limits;
use share_work::Plan;
use source_folder::{FolderFault, FolderTrouble, NamedText};
use source_search::{Shelf, with_imports};
use std::alloc::{AllocError, AllocGlobal, Global};
use std::cell::Cell;
use std::process::Abort;
use std::thread::Threads;

/// A source: its name and its text.
type File = (&'static str, &'static str);

/// A shelf in memory, which counts what it is asked.
#[derive(Drop)]
struct MemoryShelf {
    alloc: Global,
    files: &'static [File],
    calls: Cell<u32>,
}

impl Shelf for MemoryShelf {
    ghost use Rattle.std.specs.Prelude.{None};

    ghost texts = { λ _. None };

    fn text_of(&self, name: &str, _limits: &Limits) -> Result<Option<Vec<u8>>, FolderTrouble> {
        self.calls.set(self.calls.get().saturating_add(1));
        for (file, text) in self.files {
            if *file == name {
                return Ok(Some(Vec::from_slice(self.alloc, text.as_bytes())?));
            }
        }
        Ok(None)
    }
}

/// A shelf that can't be read.
#[derive(Clone, Copy)]
struct BrokenShelf;

impl Shelf for BrokenShelf {
    ghost use Rattle.std.specs.Prelude.{None};

    ghost texts = { λ _. None };

    fn text_of(&self, _name: &str, _limits: &Limits) -> Result<Option<Vec<u8>>, FolderTrouble> {
        Err(FolderTrouble::from(FolderFault::Reading))
    }
}

/// Puts a file behind the sources.
fn put_source(
    alloc: Global,
    sources: &mut Vec<NamedText>,
    name: &str,
    text: &str,
) -> Result<(), AllocError> {
    let name = String::from_str(alloc, name)?;
    let text = Vec::from_slice(alloc, text.as_bytes())?;
    sources.push(NamedText { name, text })?;
    Ok(())
}

fn sources_of(alloc: Global, files: &[File]) -> Result<Vec<NamedText>, AllocError> {
    let mut sources = Vec::new(alloc);
    for (name, text) in files {
        put_source(alloc, &mut sources, name, text)?;
    }
    Ok(sources)
}

/// The sources that are given, whose names have to rise. Without memory, or where they do not rise, there are none.
fn given_of(alloc: Global, files: &[File]) -> Result<Vec<NamedText>, AllocError>
    ensures { IfOk result (λ given. NamesRise (names_of given.items)) }
{
    let given = sources_of(alloc, files)?;
    if given.is_sorted_by(|first, second| first.name.cmp(&second.name).is_lt()) {
        Ok(given)
    } else {
        Err(AllocError)
    }
}

/// Whether sources are these, in this order.
fn are_these(sources: &[NamedText], files: &[File]) -> bool {
    for (source, (name, text)) in sources.iter().zip(files) {
        if source.name.as_str() != *name || source.text.as_slice() != text.as_bytes() {
            return false;
        }
    }
    sources.len() == files.len()
}

struct Row {
    title: &'static str,
    given: &'static [File],
    shelf: &'static [File],
    sources: &'static [File],
    /// How many names are looked up.
    calls: u32,
}

const EMPTY: &str = r#"syntax = "proto3";"#;

const OTHER: &str = r#"syntax = "proto3"; message Other {}"#;

const TO_A: &str = r#"syntax = "proto3"; import "a.proto";"#;

const TO_B: &str = r#"syntax = "proto3"; import "b.proto";"#;

const TO_C: &str = r#"syntax = "proto3"; import "c.proto";"#;

const TO_D: &str = r#"syntax = "proto3"; import "d.proto";"#;

const TO_B_AND_C: &str = r#"syntax = "proto3"; import "b.proto"; message A {} import "c.proto";"#;

const OUTSIDE: &str =
    r#"syntax = "proto3"; import "../a.proto"; import "/a.proto"; import "a//b.proto";
    import "./a.proto"; import "a/../b.proto"; import "a/./b.proto"; import "a/"; import ".."; import "."; import "";"#;

const INSIDE: &str = r#"syntax = "proto3"; import public "a/.b" "/..c"; import "...";"#;

/// Imports, and then no declaration.
const NO_FILE: &str = r#"syntax = "proto3"; import "b.proto"; message"#;

/// Imports, and a byte that begins no token.
const NO_TOKENS: &str = "syntax = \"proto3\"; import \"b.proto\"; \u{1}";

static ROWS: [Row; 13] = [
    Row {
        title: "no sources",
        given: &[],
        shelf: &[("a.proto", EMPTY)],
        sources: &[],
        calls: 0,
    },
    Row {
        title: "a source that imports nothing",
        given: &[("a.proto", EMPTY)],
        shelf: &[("b.proto", EMPTY)],
        sources: &[("a.proto", EMPTY)],
        calls: 0,
    },
    Row {
        title: "an import of an import",
        given: &[("a.proto", TO_B)],
        shelf: &[("b.proto", TO_C), ("c.proto", EMPTY), ("d.proto", EMPTY)],
        sources: &[("a.proto", TO_B), ("b.proto", TO_C), ("c.proto", EMPTY)],
        calls: 2,
    },
    Row {
        title: "two that import a third",
        given: &[("a.proto", TO_B_AND_C)],
        shelf: &[("b.proto", TO_D), ("c.proto", TO_D), ("d.proto", OTHER)],
        sources: &[
            ("a.proto", TO_B_AND_C),
            ("b.proto", TO_D),
            ("c.proto", TO_D),
            ("d.proto", OTHER),
        ],
        calls: 3,
    },
    Row {
        title: "a cycle on the shelf, and one that leads back to a given source",
        given: &[("a.proto", TO_B_AND_C)],
        shelf: &[("b.proto", TO_A), ("c.proto", TO_D), ("d.proto", TO_C)],
        sources: &[
            ("a.proto", TO_B_AND_C),
            ("b.proto", TO_A),
            ("c.proto", TO_D),
            ("d.proto", TO_C),
        ],
        calls: 3,
    },
    Row {
        title: "a source that imports itself",
        given: &[("a.proto", TO_A)],
        shelf: &[("a.proto", OTHER)],
        sources: &[("a.proto", TO_A)],
        calls: 0,
    },
    Row {
        title: "an import that stands nowhere, of two sources",
        given: &[("a.proto", TO_C), ("b.proto", TO_C)],
        shelf: &[("d.proto", EMPTY)],
        sources: &[("a.proto", TO_C), ("b.proto", TO_C)],
        calls: 1,
    },
    Row {
        title: "a given source, of whose name the shelf has another",
        given: &[("a.proto", TO_B), ("b.proto", EMPTY)],
        shelf: &[("b.proto", TO_C), ("c.proto", EMPTY)],
        sources: &[("a.proto", TO_B), ("b.proto", EMPTY)],
        calls: 0,
    },
    Row {
        title: "names that are no paths below a folder",
        given: &[("m.proto", OUTSIDE)],
        shelf: &[
            ("../a.proto", EMPTY),
            ("/a.proto", EMPTY),
            ("a//b.proto", EMPTY),
            ("./a.proto", EMPTY),
            ("a/../b.proto", EMPTY),
            ("a/./b.proto", EMPTY),
            ("a/", EMPTY),
            ("..", EMPTY),
            (".", EMPTY),
            ("", EMPTY),
        ],
        sources: &[("m.proto", OUTSIDE)],
        calls: 0,
    },
    Row {
        title: "names of dots that are paths below a folder, one of them in two strings",
        given: &[("m.proto", INSIDE)],
        shelf: &[("...", OTHER), ("a/.b/..c", EMPTY)],
        sources: &[("...", OTHER), ("a/.b/..c", EMPTY), ("m.proto", INSIDE)],
        calls: 2,
    },
    Row {
        title: "a given text that is no file by its grammar",
        given: &[("a.proto", NO_FILE)],
        shelf: &[("b.proto", EMPTY)],
        sources: &[("a.proto", NO_FILE)],
        calls: 0,
    },
    Row {
        title: "a given text that is no file by its tokens",
        given: &[("a.proto", NO_TOKENS)],
        shelf: &[("b.proto", EMPTY)],
        sources: &[("a.proto", NO_TOKENS)],
        calls: 0,
    },
    Row {
        title: "a text of the shelf that is no file",
        given: &[("c.proto", TO_A)],
        shelf: &[("a.proto", NO_FILE), ("b.proto", EMPTY)],
        sources: &[("a.proto", NO_FILE), ("c.proto", TO_A)],
        calls: 1,
    },
];

/// Whether a row's sources are found by a plan, each name looked up once.
fn is_found<R: Threads + AllocGlobal + Sync>(
    rt: &R,
    row: &Row,
    plan: Plan,
) -> Result<bool, AllocError> {
    let shelf = MemoryShelf {
        alloc: rt.alloc(),
        files: row.shelf,
        calls: Cell::new(0),
    };
    let given = given_of(rt.alloc(), row.given)?;
    match with_imports(rt, given, &shelf, &Limits::standard(), plan) {
        Ok(sources) => Ok(are_these(&sources, row.sources) && shelf.calls.get() == row.calls),
        Err(_) => Ok(false),
    }
}

/// Workers and cuts.
static PLANS: [(u32, u32); 3] = [(1, 1), (4, 1), (4, 16)];

/// Looks for a row's sources by each plan.
fn compare<R: Threads + AllocGlobal + Abort + Sync>(rt: &R, row: &Row) -> Result<(), AllocError> {
    for (workers, cut) in &PLANS {
        let is_right = match Plan::new(*workers, *cut) {
            Some(plan) => is_found(rt, row, plan)?,
            None => false,
        };
        assert!(rt; is_right, "{workers}, {cut}: {}", row.title);
    }
    Ok(())
}

#[test]
fn sources_are_found(rt: HostRuntime) -> Result<(), AllocError> {
    for row in &ROWS {
        compare(&rt, row)?;
    }
    Ok(())
}

/// Whether a fault of the shelf is the search's own.
fn is_fault_told<R: Threads + AllocGlobal + Sync>(
    rt: &R,
    given: &[File],
) -> Result<bool, AllocError> {
    let given = given_of(rt.alloc(), given)?;
    let found = with_imports(rt, given, &BrokenShelf, &Limits::standard(), Plan::single());
    let Err(trouble) = found else {
        return Ok(false);
    };
    Ok(matches!(trouble.fault, FolderFault::Reading))
}

#[test]
fn a_fault_of_the_shelf_is_told(rt: HostRuntime) -> Result<(), AllocError> {
    assert!(rt; is_fault_told(&rt, &[("a.proto", TO_B)])?);
    assert!(rt; !is_fault_told(&rt, &[("a.proto", EMPTY)])?);
    Ok(())
}
