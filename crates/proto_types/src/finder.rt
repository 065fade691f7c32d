//! The walk over a descriptor that finds what its names of types mean. It goes on behind a fault: all are found.

ghost use Rattle.std.specs.Prelude.{◌≡◌, List, flat_map, if◌then◌else◌, IfOk, OnOk};
ghost use Rattle.proto_desc.specs.DeclaredNames.{file_scope};
ghost use Rattle.proto_desc.specs.declared.options.OptionDescriptor.{OptionDescriptor};
ghost use Rattle.proto_names.specs.Scopes.{IsCandidate};
ghost use Rattle.proto_types.specs.References.{reference_to, references_of_type, references_of_field, references_by_message, references_of_method, references_of_service, references};
ghost use Rattle.proto_types.specs.Recalling.{IsFoundInFile, IsMeaningBy, IsSpelling};
ghost use Rattle.proto_types.specs.Sight.{Sight};
ghost use Rattle.proto_types.specs.Steps.{FindsIn, MeansIn};

use crate::found::Found;
use crate::known_scopes::KnownScopes;
use crate::meaning::{Meaning, meaning_of};
use crate::names::FileNames;
use crate::recalled::{Recalled, recalled_as, remember};
use proto_base::{Kind, Place, Spot};
use proto_desc::field::{FieldDesc, FieldKind};
use proto_desc::file::FileDesc;
use proto_desc::message::MessageDesc;
use proto_desc::options::OptionDescriptor;
use proto_desc::service::{MethodDesc, ServiceDesc};
use proto_desc::type_name::TypeReference;
use proto_names::{FoundType, Scopes, Want, name_in};
use std::alloc::{AllocError, Global};

/// What a name means of which this was found, where such a type is wanted.
fn meaning_by(
    alloc: Global,
    known: &mut KnownScopes,
    found: Option<FoundType>,
    place: Place,
    want: Want,
) -> Result<Meaning, AllocError>
    ensures { IfOk result (IsMeaningBy want found.entry place) }
{
    let kind = match found {
        Some(found) if want.allows(found.kind) => return meaning_of(alloc, known, found),
        Some(_) => Kind::TypeNotMessage,
        None => Kind::TypeNotFound,
    };
    Ok(Meaning::Wrong(Spot { place, kind }))
}

/// A scope in which names of types are spelled, with those that were looked up there last.
#[derive(Drop)]
pub(crate) struct Spelling<'n> {
    scope: &'n str,
    /// The scope, and those around it that stand in the file's package. They are listed for the first name that is looked
    /// up.
    scopes: Option<Scopes<'n>>,
    recalled: Vec<Recalled<'n>>,
}

impl<'n> Spelling<'n> {
    /// A scope before any name of it is looked up.
    fn new(alloc: Global, scope: &'n str) -> Spelling<'n>
        ensures scope { result.scope.now ≡ scope.now }
        ensures ready { (here : Sight) → IsCandidate here.«package» scope.now → IsSpelling here result }
    {
        Spelling {
            scope,
            scopes: None,
            recalled: Vec::new(alloc),
        }
    }
}

/// The walk over a file's names of types.
#[derive(Drop)]
pub(crate) struct Finder<'i, 'd> {
    pub(crate) alloc: Global,
    pub(crate) names: FileNames<'i, 'd>,
    pub(crate) known: KnownScopes,
}

impl<'i, 'd> Finder<'i, 'd> {
    /// The type that a name means in a scope, if it means one.
    fn find<'n>(
        &mut self,
        inner: &mut Spelling<'n>,
        text: &'d str,
    ) -> Result<Option<FoundType<'n>>, AllocError>
    where
        'd: 'n,
        requires { IsSpelling self.old.names inner.old }
        ensures same { self.new.names ≡ self.old.names }
        ensures scope { inner.new.scope.now ≡ inner.old.scope.now }
        ensures found { IfOk result (IsFoundInFile self.old.names inner.old.scope.now text.now) }
        ensures ready { OnOk result (IsSpelling self.old.names inner.new) }
    {
        match &inner.scopes {
            Some(scopes) => Ok(self.names.find(scopes, text)),
            None => {
                let scopes = Scopes::inside(self.alloc, inner.scope, self.names.package())?;
                let found = self.names.find(&scopes, text);
                inner.scopes = Some(scopes);
                Ok(found)
            }
        }
    }

    /// What a name means in a scope, where such a type is wanted.
    fn meaning<'n>(
        &mut self,
        inner: &mut Spelling<'n>,
        text: &'d str,
        place: Place,
        want: Want,
    ) -> Result<Meaning, AllocError>
    where
        'd: 'n,
        requires { IsSpelling self.old.names inner.old }
        ensures same { self.new.names ≡ self.old.names }
        ensures scope { inner.new.scope.now ≡ inner.old.scope.now }
        ensures meaning { IfOk result (λ m. (options : List OptionDescriptor)
            → MeansIn self.old.names
            (reference_to inner.old.scope.now text.now place want options) m) }
        ensures ready { OnOk result (IsSpelling self.old.names inner.new) }
    {
        if let Some(one) = recalled_as(&inner.recalled, text) {
            return meaning_by(self.alloc, &mut self.known, one.found, place, want);
        }
        let found = self.find(inner, text)?;
        let meaning = meaning_by(self.alloc, &mut self.known, found, place, want)?;
        let one = Recalled {
            spelled: text,
            found,
        };
        remember(&mut inner.recalled, one)?;
        Ok(meaning)
    }

    /// The name of a type.
    fn reference<'n>(
        &mut self,
        inner: &mut Spelling<'n>,
        reference: &'d TypeReference,
        want: Want,
        options: &[OptionDescriptor],
        found: &mut Found,
    ) -> Result<(), AllocError>
    where
        'd: 'n,
        requires { IsSpelling self.old.names inner.old }
        ensures same { self.new.names ≡ self.old.names }
        ensures scope { inner.new.scope.now ≡ inner.old.scope.now }
        ensures found { OnOk result (FindsIn self.old.names
            (references_of_type inner.old.scope.now want options.now reference.now) found.old found.new) }
        ensures ready { OnOk result (IsSpelling self.old.names inner.new) }
    {
        match reference {
            TypeReference::Spelled { text, place } => {
                let meaning = self.meaning(inner, text.as_str(), *place, want)?;
                found.add(meaning, options)
            }
            TypeReference::Resolved { .. } => Ok(()),
        }
    }

    fn field<'n>(
        &mut self,
        inner: &mut Spelling<'n>,
        field: &'d FieldDesc,
        found: &mut Found,
    ) -> Result<(), AllocError>
    where
        'd: 'n,
        requires { IsSpelling self.old.names inner.old }
        ensures same { self.new.names ≡ self.old.names }
        ensures scope { inner.new.scope.now ≡ inner.old.scope.now }
        ensures found { OnOk result (FindsIn self.old.names
            (references_of_field inner.old.scope.now field.now) found.old found.new) }
        ensures ready { OnOk result (IsSpelling self.old.names inner.new) }
    {
        match &field.field_type {
            FieldKind::Scalar(_) => Ok(()),
            FieldKind::Named(reference) => {
                let options = field.options.as_slice();
                self.reference(inner, reference, Want::AnyType, options, found)
            }
        }
    }

    fn fields<'n>(
        &mut self,
        inner: &mut Spelling<'n>,
        fields: &'d [FieldDesc],
        found: &mut Found,
    ) -> Result<(), AllocError>
    where
        'd: 'n,
        requires { IsSpelling self.old.names inner.old }
        ensures same { self.new.names ≡ self.old.names }
        ensures scope { inner.new.scope.now ≡ inner.old.scope.now }
        ensures found { OnOk result (FindsIn self.old.names
            (flat_map (references_of_field inner.old.scope.now) fields.now) found.old found.new) }
        ensures ready { OnOk result (IsSpelling self.old.names inner.new) }
    {
        for field in fields {
            self.field(inner, field, found)?;
        }
        Ok(())
    }

    /// The fields of a message that stands in one scope and is another. What a map entry names is searched from where its
    /// map field stands.
    fn own_fields<'n, 'm>(
        &mut self,
        outer: &mut Spelling<'n>,
        inner: &mut Spelling<'m>,
        fields: &'d [FieldDesc],
        is_map_entry: bool,
        found: &mut Found,
    ) -> Result<(), AllocError>
    where
        'd: 'n,
        'd: 'm,
        requires outer { IsSpelling self.old.names outer.old }
        requires inner { IsSpelling self.old.names inner.old }
        ensures same { self.new.names ≡ self.old.names }
        ensures outer { outer.new.scope.now ≡ outer.old.scope.now }
        ensures inner { inner.new.scope.now ≡ inner.old.scope.now }
        ensures found { OnOk result (FindsIn self.old.names (flat_map (references_of_field
            (if is_map_entry then outer.old.scope.now else inner.old.scope.now)) fields.now) found.old found.new) }
        ensures outer_ready { OnOk result (IsSpelling self.old.names outer.new) }
        ensures inner_ready { OnOk result (IsSpelling self.old.names inner.new) }
    {
        if is_map_entry {
            self.fields(outer, fields, found)
        } else {
            self.fields(inner, fields, found)
        }
    }

    /// A message in a scope, with all within it.
    #[cycle(messages)]
    fn message<'n>(
        &mut self,
        outer: &mut Spelling<'n>,
        message: &'d MessageDesc,
        found: &mut Found,
    ) -> Result<(), AllocError>
    where
        'd: 'n,
        requires { IsSpelling self.old.names outer.old }
        ensures same { self.new.names ≡ self.old.names }
        ensures scope { outer.new.scope.now ≡ outer.old.scope.now }
        ensures found { OnOk result (FindsIn self.old.names
            (references_by_message message.now outer.old.scope.now) found.old found.new) }
        ensures ready { OnOk result (IsSpelling self.old.names outer.new) }
    {
        let full = name_in(self.alloc, outer.scope, message.name.as_str())?;
        let mut inner = Spelling::new(self.alloc, full.as_str());
        let fields = message.fields.as_slice();
        self.own_fields(outer, &mut inner, fields, message.is_map_entry, found)?;
        self.messages(&mut inner, message.nested.as_slice(), found)
    }

    #[cycle(messages)]
    fn messages<'n>(
        &mut self,
        outer: &mut Spelling<'n>,
        messages: &'d [MessageDesc],
        found: &mut Found,
    ) -> Result<(), AllocError>
    where
        'd: 'n,
        requires { IsSpelling self.old.names outer.old }
        ensures same { self.new.names ≡ self.old.names }
        ensures found { OnOk result (FindsIn self.old.names
            (flat_map (λ m. references_by_message m outer.old.scope.now) messages.now) found.old found.new) }
    {
        for message in messages {
            self.message(outer, message, found)?;
        }
        Ok(())
    }

    /// A method of a service.
    fn method<'n>(
        &mut self,
        service: &mut Spelling<'n>,
        method: &'d MethodDesc,
        found: &mut Found,
    ) -> Result<(), AllocError>
    where
        'd: 'n,
        requires { IsSpelling self.old.names service.old }
        ensures same { self.new.names ≡ self.old.names }
        ensures scope { service.new.scope.now ≡ service.old.scope.now }
        ensures found { OnOk result (FindsIn self.old.names
            (references_of_method service.old.scope.now method.now) found.old found.new) }
        ensures ready { OnOk result (IsSpelling self.old.names service.new) }
    {
        let want = Want::MessageOnly;
        self.reference(service, &method.input, want, &[], found)?;
        self.reference(service, &method.output, want, &[], found)
    }

    /// A service in a scope.
    fn service(
        &mut self,
        scope: &str,
        service: &'d ServiceDesc,
        found: &mut Found,
    ) -> Result<(), AllocError>
        requires { IsCandidate self.old.names.«package» scope.now }
        ensures same { self.new.names ≡ self.old.names }
        ensures found { OnOk result (FindsIn self.old.names (references_of_service scope.now service.now)
            found.old found.new) }
    {
        let full = name_in(self.alloc, scope, service.name.as_str())?;
        let mut inside = Spelling::new(self.alloc, full.as_str());
        for method in service.methods.as_slice() {
            self.method(&mut inside, method, found)?;
        }
        Ok(())
    }

    fn services(
        &mut self,
        scope: &str,
        services: &'d [ServiceDesc],
        found: &mut Found,
    ) -> Result<(), AllocError>
        requires { IsCandidate self.old.names.«package» scope.now }
        ensures same { self.new.names ≡ self.old.names }
        ensures found { OnOk result (FindsIn self.old.names
            (flat_map (references_of_service scope.now) services.now) found.old found.new) }
    {
        for service in services {
            self.service(scope, service, found)?;
        }
        Ok(())
    }

    /// A file, whose package is the scope of what stands at its top.
    pub(crate) fn file(&mut self, file: &'d FileDesc, found: &mut Found) -> Result<(), AllocError>
        requires { self.old.names.«package» ≡ file_scope file.now.«package» }
        ensures { OnOk result (FindsIn self.old.names (references file.now) found.old found.new) }
    {
        let scope = file.scope();
        let mut outer = Spelling::new(self.alloc, scope);
        self.messages(&mut outer, file.messages.as_slice(), found)?;
        self.services(scope, file.services.as_slice(), found)
    }
}
