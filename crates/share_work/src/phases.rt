//! The phases of this program's work in shares, in their order: what a gate is told of each piece.

/// Work of which no gate is told.
pub const UNGATED: u8 = 0;

/// The compiler and `check` take each source by itself.
pub const DESCRIBING: u8 = 1;

/// The compiler resolves the types that each file names.
pub const RESOLVING: u8 = 2;

/// The compiler writes each descriptor.
pub const WRITING: u8 = 3;

/// An answer marks the root of each request in a table that its workers share.
pub const MARKING: u8 = 4;

/// An answer lists what each reply carries.
pub const REPLYING: u8 = 5;
