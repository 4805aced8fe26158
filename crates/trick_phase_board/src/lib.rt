//! The board of a tic: it hands the due jobs to threads one by one, and takes back what they come to,
//! so that every order of takes and commits gives what one thread makes of them.
#![tactic(auto)]

mod answers;
mod board;
mod counts;
mod known;
mod search;
mod step;
mod tables;

pub use answers::{Closed, Commit, Ran, Took};
pub use board::Board;
pub use tables::Tables;
