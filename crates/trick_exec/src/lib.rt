//! The executive: the run of a plan over a shelf, workers and a source of entries. `docs/RULES.md` has the
//! rules of a run.
#![tactic(auto)]

mod beginning;
mod ended;
mod going;
pub mod laws;
mod whole;

pub use beginning::Start;
pub use ended::Ended;
pub use trick_exec_classes::start;
pub use trick_exec_sources::{JournalTurns, Next, NoTurns, Turns};
pub use trick_model::World;
pub use trick_phase_jobs::OnePhase;
pub use trick_post_trays::OnePost;
pub use whole::run;
