//! Sets of descriptors as they come: what the bytes of a `FileDescriptorSet` say, whatever the language of its files.
//!
//! The standards are `descriptor.proto` and the encoding guide of Protocol Buffers.
#![tactic(auto)]

mod contents;
mod element;
mod error;
mod extension;
mod fault;
mod file;
mod files;
mod head;
mod last;
mod laws;
mod passes;
mod reading;
mod set;
mod table;
mod texts;
mod walking;

pub use element::Element;
pub use fault::{FaultyFile, SetError, SetFault, SetKind};
pub use laws::{descriptors_say_one_thing, read_sets_are_sound, reading_is_unique};
pub use set::read_set;
