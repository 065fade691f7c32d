//! What a source imports.

ghost use Rattle.std.specs.Prelude.{◌≡◌, ◌∷◌, ◌++◌, [], IfOk, OnOk, filter, map, string_bytes};
ghost use Rattle.proto_tree.specs.Text.{joined};
ghost use Rattle.source_folder.specs.Paths.{is_below};
ghost use Rattle.source_search.specs.Imports.{AreImportsOf, imported};

use proto_base::Limits;
use proto_syntax::{ParseError, parse};
use proto_tokens::{TokenError, tokenize};
use proto_tree::text::joined;
use proto_tree::{FileTree, Import, Statement};
use source_folder::is_below;
use std::alloc::{AllocError, Global};

/// Adds the path of an import, if it can be one below a folder.
fn put_below(alloc: Global, names: &mut Vec<String>, import: &Import) -> Result<(), AllocError>
    ensures { OnOk result (map string_bytes names.new.items ≡ map string_bytes names.old.items
        ++ filter is_below (joined import.now.path ∷ [])) }
{
    let path = joined(alloc, &import.path)?;
    if is_below(path.as_str()) {
        names.push(String::from_str(alloc, path.as_str())?)?;
    }
    Ok(())
}

/// The paths that a file imports, as far as they can be paths below a folder.
fn names_below(alloc: Global, file: &FileTree) -> Result<Vec<String>, AllocError>
    ensures { IfOk result (λ names. map string_bytes names.items
        ≡ filter is_below (imported file.now)) }
{
    let statements = file.statements.as_slice();
    let mut names = Vec::new(alloc);
    for statement in statements {
        if let Statement::Import(import) = statement {
            put_below(alloc, &mut names, import.get())?;
        }
    }
    Ok(names)
}

/// The names that a text imports, as far as they can be paths below a folder. A text that is no file by its tokens and its
/// grammar imports none.
pub(crate) fn imports_of(
    alloc: Global,
    text: &[u8],
    limits: &Limits,
) -> Result<Vec<String>, AllocError>
    ensures { IfOk result (λ names. AreImportsOf limits.now text.now
        (map string_bytes names.items)) }
{
    let tokens = match tokenize(alloc, text, limits) {
        Ok(tokens) => tokens,
        Err(TokenError::NoMemory) => return Err(AllocError),
        Err(TokenError::At(_, _)) => return Ok(Vec::new(alloc)),
    };
    match parse(alloc, &tokens, limits) {
        Ok(file) => names_below(alloc, &file),
        Err(ParseError::NoMemory) => Err(AllocError),
        Err(ParseError::At(_, _)) => Ok(Vec::new(alloc)),
    }
}
