//! From the text of a checkpoint to the state from which a run goes on. `docs/FORMATS.md` has the form of
//! checkpoints and their refusals.
#![tactic(auto)]

pub mod laws;
mod loading;

pub use loading::resume;
