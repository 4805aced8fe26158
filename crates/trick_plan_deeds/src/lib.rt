//! What an action asks for in a plan: the names that it has become the numbers of cells, jobs, groups
//! and events. An action that names what is not there, or has a number or a time out of range, asks for
//! nothing. Takes no memory.
#![tactic(auto)]

mod ask;
mod find;
mod named;

pub use ask::{deed_in_plan, deed_of, fitting, stop};
pub use find::{find_cell, find_job};
