//! Cases of one tic: what it comes to over its schedules, lists of steps that are none, acts on a board, and faster
//! forms beside their plain ones, as lines ask for them. The page RULES of the documents has the rules.
#![tactic(auto)]

mod acts;
mod benches;
mod cases;
mod directive;
mod drawn;
mod drives;
mod due;
mod forms;
mod plain;
mod schedules;
mod tally;
mod told;
mod trial;
mod walks;
mod words;
mod wrong;
mod yardstick;

pub use cases::Cases;
