//! Where the sources of a run come from.
#![tactic(auto)]

mod folder;
mod places;
mod reading;
mod system_folder;

pub use folder::{SourceFolder, read_sources};
pub use places::{Elsewhere, Places};
pub use system_folder::SystemFolder;
