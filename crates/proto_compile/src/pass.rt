//! The passes over sources, in the order in which they are judged.

mod filling;
pub(crate) mod imports;
pub(crate) mod lengths;
pub(crate) mod list;
pub(crate) mod local;
pub(crate) mod names;
pub(crate) mod types;

ghost use Rattle.std.specs.Prelude.{◌≡◌};
ghost use Rattle.proto_compile.specs.Passes.{number_of};

/// The number of the pass over each source by itself, as a fault has it.
pub const LOCAL_PASS: u8 = 1;

/// That of the pass over imports.
pub const IMPORTS_PASS: u8 = 2;

/// That of the pass over names.
pub const NAMES_PASS: u8 = 3;

/// That of the pass over types.
pub const TYPES_PASS: u8 = 4;

/// That of the pass over the lengths of descriptors.
pub const LENGTHS_PASS: u8 = 5;

/// A pass over sources. A later one is judged only where every file has passed all earlier ones.
#[derive(Clone, Copy)]
pub(crate) enum Pass {
    /// The list of sources: how many there are, and their names.
    List,
    /// Each source by itself: its tokens, its grammar, and the rules that one file can break.
    Local,
    /// The imports of the files.
    Imports,
    /// The names that the files declare.
    Names,
    /// The types that each file names.
    Types,
    /// The length of each file's descriptor.
    Lengths,
    /// The length of the set.
    Set,
}

impl Pass {
    /// Its number, by which faults are ordered.
    pub(crate) fn number(self) -> u8
        ensures { result ≡ number_of self }
    {
        match self {
            Pass::List => 0,
            Pass::Local => LOCAL_PASS,
            Pass::Imports => IMPORTS_PASS,
            Pass::Names => NAMES_PASS,
            Pass::Types => TYPES_PASS,
            Pass::Lengths => LENGTHS_PASS,
            Pass::Set => 6,
        }
    }
}
