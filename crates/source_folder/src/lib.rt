//! The proto3 sources below a folder.
#![tactic(auto)]

mod bytes;
mod fault;
mod folder;
mod kind;
mod order;
mod paths;
mod reason;
mod trouble;
mod walk;

pub use bytes::first_bytes;
pub use fault::FolderFault;
pub use folder::{
    NamedText, Standing, listed_text, read_folder, read_source, source_names, source_names_below,
    source_path, sources_in, standing_at,
};
pub use paths::is_below;
pub use reason::Reason;
pub use trouble::{FolderTrouble, TroubledEntry};
pub use walk::expect_folder;
