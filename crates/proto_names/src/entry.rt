//! An entry of an index: a full name in a file.

ghost use Rattle.std.specs.Prelude.{◌≡◌};
ghost use Rattle.proto_names.specs.Entries.{own_name};

use proto_base::Place;
use proto_desc::name_kind::NameKind;

/// A place in one of the files, which has a position among all. The order is that of the fields.
#[derive(Clone, Copy, PartialEq, Eq, PartialOrd, Ord)]
pub struct Location {
    pub file: u32,
    pub place: Place,
}

/// The first byte of the first file.
pub(crate) const FIRST_LOCATION: Location = Location {
    file: 0,
    place: Place { offset: 0 },
};

/// A full name in a file: a name of its own, in the scope that an entry before it names. So the name of a scope is kept once
/// for all that stands in it.
#[derive(Clone, Copy)]
pub(crate) struct Entry {
    /// Where the own name starts in the text of all own names, in bytes.
    pub(crate) start: u32,
    /// How many bytes the own name has.
    pub(crate) len: u32,
    /// The position of the scope's entry; where none stands there before this one, there is no scope.
    pub(crate) scope: u32,
    pub(crate) location: Location,
    /// The rolling hash of the full name.
    pub(crate) rolling: u32,
    /// What the name is declared for; none where it is a package.
    pub(crate) kind: Option<NameKind>,
}

impl Entry {
    /// The bytes of the own name, in the text of all own names. They end where the text does, so that a sort can compare any
    /// two entries.
    pub(crate) fn own_name<'t>(&self, text: &'t [u8]) -> &'t [u8]
        ensures { result.now ≡ own_name text.now self.now }
    {
        let behind = &text[(self.start as usize).min(text.len())..];
        &behind[..(self.len as usize).min(behind.len())]
    }
}
