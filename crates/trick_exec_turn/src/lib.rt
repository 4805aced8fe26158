//! One turn of the executive: its lines are noted and heard, its publications chosen and noted, its replies handed over,
//! its frame passes, and its samples are handed over. [`Run`] is what a run is lent for all of its turns.
#![tactic(auto)]

mod idle;
mod lent;
mod lines;
mod publish;
mod rest;
mod sending;
mod source;
mod turn;

pub use idle::idles;
pub use lent::{Keeping, Run};
pub use source::ask;
pub use turn::Given;
