//! Elements that declare one name, their own.

ghost use Rattle.std.specs.Prelude.{◌≡◌, ℕ, List};
ghost use Rattle.proto_desc.specs.DeclaredNames.{declared_field, declared_oneof, declared_value, declared_method};

use crate::enumeration::ValueDesc;
use crate::field::FieldDesc;
use crate::name_kind::NameKind;
use crate::oneof::OneofDesc;
use crate::service::MethodDesc;
use proto_base::Place;

/// The name of an element, where it stands, and what it names.
#[derive(Clone, Copy)]
pub struct DeclaredName<'d> {
    pub name: &'d str,
    pub place: Place,
    pub kind: NameKind,
}

/// An element that declares its own name and no other.
pub trait Declares {
    ghost use Rattle.std.specs.Prelude.{ℕ, List};
    ghost use Rattle.proto_desc.specs.DeclaredNames.{Declared};

    /// What it declares in a scope.
    ghost declared: { List ℕ → Self → Declared };

    /// Its name.
    fn declared_name(&self) -> DeclaredName<'_>
        ensures { (scope : List ℕ) → declared scope self.now ≡ record {
          scope = scope;
          name = result.name.now;
          kind = result.kind;
          place = result.place;
        } };
}

impl<'s> Declares for FieldDesc<'s> {
    ghost declared = { declared_field };

    fn declared_name(&self) -> DeclaredName<'_> {
        DeclaredName {
            name: self.name.as_str(),
            place: self.place,
            kind: NameKind::Field,
        }
    }
}

impl<'s> Declares for OneofDesc<'s> {
    ghost declared = { declared_oneof };

    fn declared_name(&self) -> DeclaredName<'_> {
        DeclaredName {
            name: self.name.as_str(),
            place: self.place,
            kind: NameKind::Oneof,
        }
    }
}

impl<'s> Declares for ValueDesc<'s> {
    ghost declared = { declared_value };

    fn declared_name(&self) -> DeclaredName<'_> {
        DeclaredName {
            name: self.name.as_str(),
            place: self.place,
            kind: NameKind::Value,
        }
    }
}

impl<'s> Declares for MethodDesc<'s> {
    ghost declared = { declared_method };

    fn declared_name(&self) -> DeclaredName<'_> {
        DeclaredName {
            name: self.name.as_str(),
            place: self.place,
            kind: NameKind::Method,
        }
    }
}
