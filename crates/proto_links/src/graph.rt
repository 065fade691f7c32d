//! Imports as a graph of files.

ghost use Rattle.std.specs.Prelude.{◌≡◌, ◌↔◌, ℕ, Contains, IfOk, IsTrue, false, map};
ghost use Rattle.digraph.specs.Edges.{graph_of};
ghost use Rattle.proto_links.specs.Imports.{PublicTargets, Targets, imports_at, name_of};
ghost use Rattle.proto_base.specs.NameOrder.{NamesRise};
ghost use Rattle.proto_links.specs.Graphs.{HasMissing, IsGraph, IsPublicGraph};

use crate::order::file_named;
use proto_desc::file::{FileDesc, ImportDescriptor};
use std::alloc::{AllocError, Global};

/// The files that one file imports, and those of them that it imports publicly.
#[derive(Drop)]
struct ImportedFiles {
    all: Vec<usize>,
    public: Vec<usize>,
    /// Whether each import names a file.
    is_whole: bool,
}

/// What the imports of one file name.
fn targets(
    alloc: Global,
    files: &[FileDesc],
    imports: &[ImportDescriptor],
) -> Result<ImportedFiles, AllocError>
    requires { NamesRise (map name_of files.now) }
    ensures all { IfOk result (λ targets. (b : ℕ)
        → Contains targets.all.items b ↔ Targets files.now imports.now b) }
    ensures public { IfOk result (λ targets. (b : ℕ)
        → Contains targets.public.items b ↔ PublicTargets files.now imports.now b) }
    ensures whole { IfOk result (λ targets. IsTrue targets.is_whole
        → HasMissing files.now imports.now → ⊥) }
    ensures part { IfOk result (λ targets. targets.is_whole ≡ false
        → HasMissing files.now imports.now) }
{
    let mut all = Vec::new(alloc);
    let mut public = Vec::new(alloc);
    let mut is_whole = true;
    for import in imports {
        match file_named(files, import.path.as_str()) {
            Some(target) => {
                all.push(target)?;
                if import.is_public {
                    public.push(target)?;
                }
            }
            None => is_whole = false,
        }
    }
    Ok(ImportedFiles {
        all,
        public,
        is_whole,
    })
}

/// The files that each file imports, and those that it imports publicly.
#[derive(Drop)]
pub(crate) struct Graph {
    pub(crate) imports: Vec<Vec<usize>>,
    pub(crate) public_imports: Vec<Vec<usize>>,
    /// Whether each import names a file.
    pub(crate) is_whole: bool,
}

/// The graph of the imports that name a file.
pub(crate) fn import_graph(alloc: Global, files: &[FileDesc]) -> Result<Graph, AllocError>
    requires { NamesRise (map name_of files.now) }
    ensures imports { IfOk result (λ graph. IsGraph files.now (graph_of graph.imports.items)) }
    ensures public { IfOk result (λ graph. IsPublicGraph files.now
        (graph_of graph.public_imports.items)) }
    ensures whole { IfOk result (λ graph. IsTrue graph.is_whole → (a : ℕ)
        → HasMissing files.now (imports_at files.now a) → ⊥) }
    ensures part { IfOk result (λ graph. graph.is_whole ≡ false
        → (a : ℕ) × HasMissing files.now (imports_at files.now a)) }
{
    let mut imports = Vec::new(alloc);
    let mut public_imports = Vec::new(alloc);
    let mut is_whole = true;
    for file in files {
        let targets = targets(alloc, files, file.imports.as_slice())?;
        imports.push(targets.all)?;
        public_imports.push(targets.public)?;
        is_whole = is_whole && targets.is_whole;
    }
    Ok(Graph {
        imports,
        public_imports,
        is_whole,
    })
}
