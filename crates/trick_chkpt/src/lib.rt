//! Checkpoints as they are loaded: the state of a text, or why it is the checkpoint of none, with the laws
//! of these texts. `trick_chkpt_printer` prints them.
#![tactic(auto)]

mod fault_kind;
mod job_texts;
pub mod laws;
mod loader;
mod read_faults;
mod read_records;

pub use loader::load;
pub use trick_chkpt_printer::print;
