//! From the two texts of a simulation to what a command goes on with: the S_define is read and its names
//! are looked up, the input is read, both are joined to a plan, and the plan is judged. The first step that
//! refuses decides what is printed. The page FORMATS of the documents has the table of refusals.
#![tactic(auto)]

mod input;
pub mod laws;
mod plan;
mod s_define;
mod texts;
mod unready;

pub use texts::ready;
pub use unready::Unready;
