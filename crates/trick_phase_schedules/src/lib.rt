//! Every schedule of a tic comes to what one thread makes of it. A schedule says in which order the due
//! jobs are taken and committed; the laws say what each beginning of one leaves.
#![tactic(auto)]

pub mod laws;
mod stage;
mod step;

pub use stage::Stage;
pub use step::Step;
