//! Files (proto3 language specification, "Proto File").

ghost use Rattle.std.specs.Prelude.{◌≡◌, ◌∷◌, ◌++◌, [], IfOk, OnOk, map, flat_map, slice_get, string_bytes};
ghost use Rattle.std.specs.Option.{option_copied};
ghost use Rattle.proto_options.specs.Statements.{file_package, file_message, file_enum, file_service};
ghost use Rattle.proto_lower.specs.Enums.{lowered_enum};
ghost use Rattle.proto_lower.specs.Files.{package_of, package_scope, import_descriptor, import_of, lowered};
ghost use Rattle.proto_lower.specs.Messages.{lowered_message};
ghost use Rattle.proto_lower.specs.Services.{lowered_service};

use crate::enumeration::put_enum;
use crate::field::inner_name;
use crate::message::put_message;
use crate::options::options_of;
use crate::service::put_service;
use crate::shared_scope::SharedScope;
use proto_base::row::Row;
use proto_base::text::Text;
use proto_desc::enumeration::EnumDesc;
use proto_desc::file::{FileDesc, ImportDescriptor, PackageDescriptor};
use proto_desc::message::MessageDesc;
use proto_desc::rules::Element;
use proto_desc::service::ServiceDesc;
use proto_tree::text::{dotted, joined};
use proto_tree::{FileTree, Import, Package, Statement};
use std::alloc::{AllocError, Global};

fn first_package<'t, 's>(statements: &'t [Statement<'s>]) -> Option<&'t Package<'s>>
    ensures { option_copied result ≡ slice_get (flat_map file_package statements.now) 0 }
{
    for statement in statements {
        if let Statement::Package(package) = statement {
            return Some(package.get());
        }
    }
    None
}

/// The package, by the first statement of one.
fn lower_package<'s>(
    alloc: Global,
    statements: &[Statement<'s>],
) -> Result<Option<PackageDescriptor<'s>>, AllocError>
    ensures { IfOk result (λ found. found ≡ package_of statements.now) }
{
    match first_package(statements) {
        Some(package) => Ok(Some(PackageDescriptor {
            name: dotted(alloc, &package.name)?,
            place: package.name.first.span.start,
        })),
        None => Ok(None),
    }
}

/// The full name, behind a leading dot, of what is around the top of a file.
fn package_scope(alloc: Global, declared: &Option<PackageDescriptor>) -> Result<String, AllocError>
    ensures { IfOk result (λ scope. string_bytes scope ≡ package_scope declared.now) }
{
    match declared {
        Some(package) => inner_name(alloc, "", package.name.as_str()),
        None => Ok(String::new(alloc)),
    }
}

/// Adds an import.
fn put_import<'s>(
    alloc: Global,
    out: &mut Vec<ImportDescriptor<'s>>,
    import: &Import<'s>,
) -> Result<(), AllocError>
    ensures { OnOk result (out.new.items ≡ out.old.items ++ import_descriptor import.now ∷ []) }
{
    out.push(ImportDescriptor {
        path: joined(alloc, &import.path)?,
        place: import.path.first.span.start,
        is_public: import.public.is_some(),
    })?;
    Ok(())
}

/// What the statements at the top of a file import and declare.
#[derive(Drop)]
struct Declared<'s> {
    imports: Vec<ImportDescriptor<'s>>,
    messages: Vec<MessageDesc<'s>>,
    enums: Vec<EnumDesc<'s>>,
    services: Vec<ServiceDesc<'s>>,
}

/// How many statements of each kind there are.
#[derive(Clone, Copy)]
struct StatementCounts {
    imports: usize,
    messages: usize,
    enums: usize,
    services: usize,
}

fn counts_of(statements: &[Statement]) -> StatementCounts {
    let mut counts = StatementCounts {
        imports: 0,
        messages: 0,
        enums: 0,
        services: 0,
    };
    for statement in statements {
        match statement {
            Statement::Import(_) => counts.imports = counts.imports.saturating_add(1),
            Statement::Message(_) => counts.messages = counts.messages.saturating_add(1),
            Statement::Enum(_) => counts.enums = counts.enums.saturating_add(1),
            Statement::Service(_) => counts.services = counts.services.saturating_add(1),
            _ => {}
        }
    }
    counts
}

/// Makes room for what these statements import and declare.
fn make_room(out: &mut Declared, statements: &[Statement]) -> Result<(), AllocError>
    ensures imports { OnOk result (out.new.imports.items ≡ out.old.imports.items) }
    ensures messages { OnOk result (out.new.messages.items ≡ out.old.messages.items) }
    ensures enums { OnOk result (out.new.enums.items ≡ out.old.enums.items) }
    ensures services { OnOk result (out.new.services.items ≡ out.old.services.items) }
{
    let counts = counts_of(statements);
    out.imports.reserve_exact(counts.imports)?;
    out.messages.reserve_exact(counts.messages)?;
    out.enums.reserve_exact(counts.enums)?;
    out.services.reserve_exact(counts.services)
}

/// Adds what these statements import and declare, in this scope.
fn put_scoped<'s>(
    alloc: Global,
    out: &mut Declared<'s>,
    scope: &str,
    statements: &[Statement<'s>],
) -> Result<(), AllocError>
    ensures imports { OnOk result (out.new.imports.items
        ≡ out.old.imports.items ++ flat_map import_of statements.now) }
    ensures messages { OnOk result (out.new.messages.items ≡ out.old.messages.items
        ++ map (lowered_message scope.now) (flat_map file_message statements.now)) }
    ensures enums { OnOk result (out.new.enums.items
        ≡ out.old.enums.items ++ map lowered_enum (flat_map file_enum statements.now)) }
    ensures services { OnOk result (out.new.services.items
        ≡ out.old.services.items ++ map lowered_service (flat_map file_service statements.now)) }
{
    let mut shared = SharedScope::new(scope);
    for statement in statements {
        match statement {
            Statement::Import(import) => put_import(alloc, &mut out.imports, import.get())?,
            Statement::Message(message) => {
                put_message(alloc, &mut out.messages, &mut shared, message.get())?;
            }
            Statement::Enum(declared) => put_enum(alloc, &mut out.enums, declared.get())?,
            Statement::Service(service) => put_service(alloc, &mut out.services, service.get())?,
            _ => {}
        }
    }
    Ok(())
}

/// Adds what these statements import and declare, in the scope of the file's package.
fn put_declared<'s>(
    alloc: Global,
    out: &mut Declared<'s>,
    package: &Option<PackageDescriptor>,
    statements: &[Statement<'s>],
) -> Result<(), AllocError>
    ensures imports { OnOk result (out.new.imports.items
        ≡ out.old.imports.items ++ flat_map import_of statements.now) }
    ensures messages { OnOk result (out.new.messages.items ≡ out.old.messages.items
        ++ map (lowered_message (package_scope «package».now))
        (flat_map file_message statements.now)) }
    ensures enums { OnOk result (out.new.enums.items
        ≡ out.old.enums.items ++ map lowered_enum (flat_map file_enum statements.now)) }
    ensures services { OnOk result (out.new.services.items
        ≡ out.old.services.items ++ map lowered_service (flat_map file_service statements.now)) }
{
    let scope = package_scope(alloc, package)?;
    make_room(out, statements)?;
    put_scoped(alloc, out, scope.as_str(), statements)
}

/// The descriptor of the file with this name: what its tree describes, whatever rules it breaks. It refuses nothing but for
/// want of memory.
pub fn lower<'s>(
    alloc: Global,
    name: &'s str,
    file: &FileTree<'s>,
) -> Result<FileDesc<'s>, AllocError>
    ensures { IfOk result (λ made. made ≡ lowered name.now file.now) }
{
    let statements = file.statements.as_slice();
    let options = options_of(alloc, Element::File, statements)?;
    let package = lower_package(alloc, statements)?;
    let mut declared = Declared {
        imports: Vec::new(alloc),
        messages: Vec::new(alloc),
        enums: Vec::new(alloc),
        services: Vec::new(alloc),
    };
    put_declared(alloc, &mut declared, &package, statements)?;
    Ok(FileDesc {
        name: Text::borrowed(name),
        package,
        imports: Row::from_vec(declared.imports),
        messages: Row::from_vec(declared.messages),
        enums: Row::from_vec(declared.enums),
        services: Row::from_vec(declared.services),
        options,
    })
}
