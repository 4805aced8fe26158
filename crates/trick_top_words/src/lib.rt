//! The words of a command line: which command they ask for, and with which files and numbers. They
//! are read by `clap`, after the words that it would take otherwise are refused.
#![tactic(auto)]

mod command;
mod command_line;
mod commands;
pub mod laws;
mod number;

pub use command::{Command, Task, Texts, read_command};

/// The six commands by name.
#[derive(Debug, Clone, Copy, PartialEq, Eq, Drop)]
pub enum Kind {
    Serial,
    Run,
    Replay,
    Check,
    List,
    Gen,
}
