//! The draft of a plan: what the lines of an input have said so far. Each line is one call, which is
//! refused, or adds to the draft what the line says.
#![tactic(auto)]

mod cells;
mod condition;
mod deeds;
mod draft;
mod event;
mod event_lines;
mod fault;
mod group;
mod group_lines;
mod handle;
mod jobs;
pub mod laws;
mod limits;
mod lines;

pub use cells::KnownCells;
pub use condition::Condition;
pub use draft::Draft;
pub use event::EventDraft;
pub use fault::LineFault;
pub use group::GroupDraft;
pub use handle::Handle;
pub use jobs::{job_of, waiting_job};
