//! The top call of all commands that wait for nobody, over any shelf of files and any sink of printed lines; and the steps
//! that the command `run` shares with them.
#![tactic(auto)]

mod alone;
mod files;
mod generated;
mod plans;
mod replays;
mod runs;
mod sources;
mod texts;
mod verdict;
mod words;

pub use alone::{print, print_out_of_memory, tricks_alone};
pub use files::read_named;
pub use runs::unloaded;
pub use sources::{Contents, Sources, as_sources};
pub use texts::refused;
pub use verdict::Verdict;
pub use words::read_run;
