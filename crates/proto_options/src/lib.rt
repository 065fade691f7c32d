//! The settings of the elements of a file, and what their values are; what is reserved, and the greatest numbers: what
//! lowering and the rules both ask.
#![tactic(auto)]

mod greatest;
mod method;
mod reserved;
mod settings;
mod value;

pub use greatest::{FIELD_MAX, VALUE_MAX};
pub use method::rpc_items;
pub use reserved::{Reserves, names_listed, ranges_listed};
pub use settings::{Item, first_bracketed, first_setting, is_setting};
pub use value::number_of;
