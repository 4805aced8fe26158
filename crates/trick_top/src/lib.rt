//! The top call of the whole program: every command, and `run` with threads and clients, over any shelf of files, any
//! sink of printed lines and any door of clients. `docs/RULES.md` has the rules of the command line and of served runs.
#![tactic(auto)]

mod ports;
mod runs;
mod texts;
mod top;

pub use ports::port_wanted;
pub use top::{Finished, tricks};
pub use trick_top_alone::tricks_alone;
