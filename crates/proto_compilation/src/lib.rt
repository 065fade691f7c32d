//! Compilations: files by name with the bytes of their descriptors, what they import and what their names are declared for.
//! Whatever made one, what answers asks it alone.
#![tactic(auto)]

mod compiled;
mod extension;
mod set;
mod table;

pub use compiled::Compiled;
pub use extension::Extension;
pub use set::FILE_FIELD;
pub use table::FileTable;
