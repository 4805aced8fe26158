//! All lines of an input, one after another: what they say of a program makes a draft of the plan, or
//! the first line that is refused decides.
#![tactic(auto)]

mod fault;
pub mod laws;
mod lines;
mod said;
mod texts;
mod times;

pub use fault::JoinFault;
pub use lines::draft;
