//! What is read of a folder, by worked examples.

mod feigned_folder;
mod folder;
