//! The files of a run, beside the rows of its logs: the journal, the headers of the logs, checkpoints,
//! the last state and the faults. `docs/FORMATS.md` has their forms, and `docs/RULES.md` says when each
//! is written.
#![tactic(auto)]

mod begin;
mod checkpoint;
mod end;
mod notes;

pub use begin::begin_files;
pub use checkpoint::write_checkpoint;
pub use end::end_files;
pub use notes::note;
