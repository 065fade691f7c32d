//! Names: what occurs in a set of files, and what a spelled name means.
//!
//! The standard is the proto3 language guide, "Packages and Name Resolution".
#![tactic(auto)]

mod collect;
mod collected;
mod entries;
mod entry;
mod full_name;
mod halving;
mod hashing;
mod index;
mod keyed_entries;
mod keys;
mod name_bytes;
mod names;
mod packages;
mod part;
mod parts;
mod repeated;
mod resolve;
mod scope;
mod scope_before;
mod scope_hashes;
mod scope_parts;
mod scopes;
mod share;
mod shares;
mod sorted;
mod spelled_name;
mod starts;
mod table;
mod tables;
mod threading;
mod twice;
mod visible;

pub use entries::Entries;
pub use entry::Location;
pub use full_name::name_in;
pub use index::{Defined, NameError, NameIndex};
pub use repeated::repeated_names;
pub use resolve::{FoundInside, FoundType, ResolveError, Resolved, Want, resolution_is_unique};
pub use scope::Scope;
pub use scopes::Scopes;
pub use spelled_name::SpelledName;
pub use starts::slot_of;
pub use threading::Threading;
