//! Cases of what is read and written line by line, below the program: lines of clients, deeds, kept faults, sessions,
//! journals, sources of entries and checkpoints. A line is answered with what it comes to.
#![tactic(auto)]

mod calls;
mod cases;
mod checkpoints;
mod clients;
mod deeds;
mod faults;
mod feeds;
mod journals;
mod plans;
mod runs;
mod sessions;
mod sources;
mod stage;
mod words;

pub use cases::Cases;
