//! The folder that the program is run in, as a shelf of files, and standard output, as a sink.
//!
//! They tell nothing of the bytes that come and go, since no clause can name what the system gives or takes. They stand
//! apart from the program so that what is trusted here is small, and is tried by itself.
#![tactic(auto)]

mod folder;
mod open_files;
mod standard_output;

pub use folder::Folder;
pub use standard_output::StandardOutput;
