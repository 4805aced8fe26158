//! A small line file, printed and loaded by the helpers of `trick_codes`: an example of how a printer and
//! a loader are written and proved, and a trial of the helpers.
#![tactic(auto)]

mod file;
pub mod laws;
mod loader;
mod printer;

pub use file::{Gauge, Mode, Readings};
pub use loader::load;
pub use printer::print;
