//! What a file sees of the entries of a name.

ghost use Rattle.std.specs.Prelude.{◌≡◌, ◌↔◌, ◌<◌, All, IfSome, IsTrue, MatchOption, length};
ghost use Rattle.proto_links.specs.Linked.{count_of};
ghost use Rattle.proto_names.specs.Packages.{IsPackageOf};
ghost use Rattle.proto_names.specs.Resolution.{SeenBy};
ghost use Rattle.proto_names.specs.Runs.{at};
ghost use Rattle.proto_names.specs.Steps.{HasNoType, HasOneIn, IsTypeAmong, fits};

use crate::names::Names;
use crate::table::NameEntries;
use proto_desc::name_kind::NameKind;
use proto_links::{FileId, Links};

/// What a name is looked up as.
#[derive(Clone, Copy)]
pub(crate) enum Role {
    Message,
    Type,
    Scope,
}

impl Role {
    /// Whether what a name is declared for fits. A package, which is declared for nothing, is a scope.
    pub(crate) fn fits(self, kind: Option<NameKind>) -> bool
        ensures { result ≡ fits self kind }
    {
        match kind {
            None => matches!(self, Role::Scope),
            Some(NameKind::Message) => true,
            Some(NameKind::Enum) => matches!(self, Role::Type | Role::Scope),
            Some(NameKind::Service) => matches!(self, Role::Scope),
            Some(NameKind::Field | NameKind::Oneof | NameKind::Value | NameKind::Method) => false,
        }
    }
}

/// Whether the entry at a position is of a kind that fits, and stands in a file that this one sees.
fn is_seen(links: &Links, file: FileId, role: Role, names: &Names, position: usize) -> bool
    requires file { file < count_of links.now }
    requires position { position < length names.now }
    requires entry { (at names.now position).file < count_of links.now }
    ensures { IsTrue result ↔ (IsTrue (fits role (at names.now position).kind)
        × SeenBy links.now file (at names.now position).file) }
{
    role.fits(names.kind(position)) && links.sees(file, names.location(position).file as FileId)
}

/// Whether a file sees one of the entries, of a kind that fits: each of them is looked at.
fn sees_entry(links: &Links, file: FileId, role: Role, names: &Names) -> bool
    requires file { file < count_of links.now }
    requires entries { All (λ o. o.file < count_of links.now) names.now }
    ensures { IsTrue result ↔ HasOneIn names.now (fits role) (SeenBy links.now file) }
{
    for position in 0..names.len() {
        if is_seen(links, file, role, names, position) {
            return true;
        }
    }
    false
}

/// Whether a file sees one of the entries of a name, of a kind that fits. A package that many files have is known by
/// these, and no entry of it is looked at.
pub(crate) fn sees_one(links: &Links, file: FileId, role: Role, named: &NameEntries) -> bool
    requires file { file < count_of links.now }
    requires entries { All (λ o. o.file < count_of links.now) named.now.names }
    requires files { IfSome named.now.files (λ p. IsPackageOf named.now.names p.files.now p.row) }
    ensures { IsTrue result ↔ HasOneIn named.now.names (fits role) (SeenBy links.now file) }
{
    match &named.files {
        Some(package) => { role.fits(None) && links.sees_one_of(file, package.files, package.row) }
        None => sees_entry(links, file, role, &named.names),
    }
}

/// The kind of the type that a file sees among the entries of a name.
pub(crate) fn type_among(links: &Links, file: FileId, named: &NameEntries) -> Option<NameKind>
    requires file { file < count_of links.now }
    requires entries { All (λ o. o.file < count_of links.now) named.now.names }
    requires files { IfSome named.now.files (λ p. IsPackageOf named.now.names p.files.now p.row) }
    ensures { MatchOption result (HasNoType named.now.names (SeenBy links.now file))
        (IsTypeAmong named.now.names (SeenBy links.now file)) }
{
    if sees_one(links, file, Role::Message, named) {
        Some(NameKind::Message)
    } else if sees_one(links, file, Role::Type, named) {
        Some(NameKind::Enum)
    } else {
        None
    }
}
