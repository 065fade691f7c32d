//! What the layers of the compiler all speak of: limits, places, kinds of fault and faults, the scalar
//! types, and the list, the text and the pointer that trees hold.
#![tactic(auto)]

pub mod boxed;
mod fault;
mod file_fault;
mod kind;
mod limits;
mod place;
pub mod row;
pub mod scalar_type;
mod spot;
pub mod text;

pub use fault::Fault;
pub use file_fault::{FileError, FileFault, ONLY_STEP};
pub use kind::Kind;
pub use limits::{Limit, Limits};
pub use place::{Place, Span, line_column};
pub use spot::{Spot, lesser, sort_spots};
