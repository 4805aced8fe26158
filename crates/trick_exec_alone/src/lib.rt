//! The whole run of an accepted plan on one thread: without clients, as `serial` does it once its texts were read, and
//! under a journal, as `replay` does it. `docs/RULES.md` has the rules of a run and says what a replay is, and
//! `docs/FORMATS.md` has its files.
#![tactic(auto)]

mod first;
pub mod laws;
mod replayed;
mod sum;
mod summary;
mod under_journal;
mod without_clients;
mod workers;

pub use first::first_state;
pub use replayed::Replayed;
pub use summary::{Summary, summary_of};
pub use under_journal::{replay, replay_from};
pub use without_clients::{serial, serial_by, serial_from};
pub use workers::one_thread;
