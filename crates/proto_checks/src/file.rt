//! All rules of a file (proto3 language specification, "Proto File").

ghost use Rattle.std.specs.Prelude.{◌≡◌, ◌↔◌, AllPairs, Contains, IfOk, OnOk};
ghost use Rattle.std.specs.Option.{option_map};
ghost use Rattle.proto_desc.specs.DeclaredNames.{file_scope, declared_by};
ghost use Rattle.proto_checks.specs.Checks.{NotProto3Syntax, import_mark, IsTooLong, HeadBreaks, NamesBreak, LengthsBreak, FileBreaks};
ghost use Rattle.proto_checks.specs.Parts.{StatementBreaks};
ghost use Rattle.proto_base.specs.Least.{IsLeast, Precedes, spot};
ghost use Rattle.proto_checks.specs.Lengths.{capped};
ghost use Rattle.proto_base.specs.Sets.{Each, Gains};
ghost use Rattle.proto_base.specs.declared.spot.Spot.{Spot};

use crate::body::put_message_faults;
use crate::each::{Check, put_each};
use crate::enumeration::put_enum_faults;
use crate::faults::put_fault;
use crate::lengths::put_long_names;
use crate::marks::{HasText, MarkedText};
use crate::package::{put_long_packages, put_packages_twice};
use crate::repeats::put_texts_twice;
use crate::service::put_service_faults;
use crate::settings::put_statement_setting_faults;
use proto_base::{Kind, Limits, Place, Spot, lesser, sort_spots};
use proto_desc::file::{FileDesc, ImportDescriptor};
use proto_desc::rules::Element;
use proto_tree::text::joined;
use proto_tree::{FileTree, Statement, Syntax};
use std::alloc::{AllocError, Global};

fn put_syntax_fault(
    alloc: Global,
    faults: &mut Vec<Spot>,
    syntax: &Syntax,
) -> Result<(), AllocError>
    ensures { OnOk result (Gains (NotProto3Syntax syntax.now) faults.old.items faults.new.items) }
{
    let version = joined(alloc, &syntax.version)?;
    if version.as_str() == "proto3" {
        return Ok(());
    }
    put_fault(
        faults,
        syntax.version.first.span.start,
        Kind::NotProto3Syntax,
    )
}

/// The text of an import is its path.
impl<'s> HasText for ImportDescriptor<'s> {
    ghost mark = { import_mark };

    fn marked_text(&self) -> MarkedText<'_> {
        MarkedText {
            text: self.path.as_str(),
            place: self.place,
        }
    }
}

/// Puts the faults of the syntax, the packages, the imports and the options of a file.
fn put_head_faults(
    alloc: Global,
    faults: &mut Vec<Spot>,
    tree: &FileTree,
    desc: &FileDesc,
) -> Result<(), AllocError>
    ensures { OnOk result (Gains (HeadBreaks tree.now desc.now) faults.old.items faults.new.items) }
{
    let statements = tree.statements.as_slice();
    put_syntax_fault(alloc, faults, &tree.syntax)?;
    put_packages_twice(faults, statements)?;
    put_texts_twice(alloc, faults, Kind::ImportTwice, desc.imports.as_slice())?;
    put_statement_setting_faults(alloc, faults, Element::File, statements)
}

impl Check for Statement<'_> {
    ghost breaks = { StatementBreaks };

    fn put_faults(&self, alloc: Global, faults: &mut Vec<Spot>) -> Result<(), AllocError> {
        match self {
            Statement::Message(message) => put_message_faults(alloc, faults, message.get()),
            Statement::Enum(declared) => put_enum_faults(alloc, faults, declared.get()),
            Statement::Service(service) => put_service_faults(alloc, faults, service.get()),
            Statement::Import(_)
            | Statement::Package(_)
            | Statement::Option(_)
            | Statement::Empty(_) => Ok(()),
        }
    }
}

fn put_name_faults(alloc: Global, faults: &mut Vec<Spot>, desc: &FileDesc) -> Result<(), AllocError>
    ensures { OnOk result (Gains (NamesBreak desc.now) faults.old.items faults.new.items) }
{
    put_each(alloc, faults, desc.messages.as_slice())?;
    put_each(alloc, faults, desc.enums.as_slice())
}

/// The length of the scope of what stands at the top of a file.
fn scope_len(desc: &FileDesc) -> usize
    ensures { result ≡ capped (file_scope desc.now.«package») }
{
    desc.scope().len()
}

fn put_declared_length_faults(
    faults: &mut Vec<Spot>,
    limits: &Limits,
    desc: &FileDesc,
) -> Result<(), AllocError>
    ensures { OnOk result (Gains (Each (declared_by desc.now) (IsTooLong limits.now))
        faults.old.items faults.new.items) }
{
    let len = scope_len(desc);
    put_long_names(faults, limits, len, desc.messages.as_slice())?;
    put_long_names(faults, limits, len, desc.enums.as_slice())?;
    put_long_names(faults, limits, len, desc.services.as_slice())
}

fn put_length_faults(
    faults: &mut Vec<Spot>,
    limits: &Limits,
    statements: &[Statement],
    desc: &FileDesc,
) -> Result<(), AllocError>
    ensures { OnOk result (Gains (LengthsBreak limits.now statements.now desc.now)
        faults.old.items faults.new.items) }
{
    put_long_packages(faults, limits, statements)?;
    put_declared_length_faults(faults, limits, desc)
}

fn put_file_faults(
    alloc: Global,
    faults: &mut Vec<Spot>,
    tree: &FileTree,
    desc: &FileDesc,
    limits: &Limits,
) -> Result<(), AllocError>
    ensures { OnOk result (Gains (FileBreaks limits.now tree.now desc.now)
        faults.old.items faults.new.items) }
{
    let statements = tree.statements.as_slice();
    put_head_faults(alloc, faults, tree, desc)?;
    put_each(alloc, faults, statements)?;
    put_name_faults(alloc, faults, desc)?;
    put_length_faults(faults, limits, statements, desc)
}

/// The rules that a file breaks, in whatever order, some more than once.
fn found_faults(
    alloc: Global,
    tree: &FileTree,
    desc: &FileDesc,
    limits: &Limits,
) -> Result<Vec<Spot>, AllocError>
    ensures { IfOk result (λ faults. (x : Spot)
        → Contains faults.items x ↔ FileBreaks limits.now tree.now desc.now x) }
{
    let mut faults = Vec::new(alloc);
    put_file_faults(alloc, &mut faults, tree, desc, limits)?;
    Ok(faults)
}

/// All rules that a file breaks, each with the place where it does, by place and then by the kind's number, each once. The
/// descriptor is that of the tree, as `lower` gives it.
///
/// The rules are those that docs/LANGUAGE.md lists. Only memory can be refused.
pub fn check_faults(
    alloc: Global,
    tree: &FileTree,
    desc: &FileDesc,
    limits: &Limits,
) -> Result<Vec<Spot>, AllocError>
    ensures all { IfOk result (λ faults. (x : Spot)
        → Contains faults.items x ↔ FileBreaks limits.now tree.now desc.now x) }
    ensures order { IfOk result (λ faults. AllPairs Precedes faults.items) }
{
    let mut faults = found_faults(alloc, tree, desc, limits)?;
    sort_spots(&mut faults);
    Ok(faults)
}

/// The first of some faults.
fn first_of(faults: &[Spot]) -> Option<Spot>
    ensures { IsLeast (Contains faults.now) result }
{
    let mut first = None;
    for fault in faults {
        first = lesser(first, Some(*fault));
    }
    first
}

/// The first rule that a file breaks, and the place where it does; of those at one place, the one of the least kind.
/// `None` exactly where it breaks none. The descriptor is that of the tree, as `lower` gives it.
///
/// The rules are those that docs/LANGUAGE.md lists. Only memory can be refused.
pub fn first_check_fault(
    alloc: Global,
    tree: &FileTree,
    desc: &FileDesc,
    limits: &Limits,
) -> Result<Option<(Place, Kind)>, AllocError>
    ensures { IfOk result (λ first. IsLeast (FileBreaks limits.now tree.now desc.now)
        (option_map (λ fault. spot fault.0 fault.1) first)) }
{
    let faults = found_faults(alloc, tree, desc, limits)?;
    match first_of(&faults) {
        Some(spot) => Ok(Some((spot.place, spot.kind))),
        None => Ok(None),
    }
}
