//! Journals: the text of what came to a run from outside, printed and read, with the laws of these texts. A text that is
//! refused is no journal.
#![tactic(auto)]

mod journal_fault;
pub mod laws;
mod printer;
mod reader;
mod row;
mod rows;

pub use journal_fault::JournalFault;
pub use printer::{print, push_entry_line, push_first_lines, push_last_line};
pub use reader::read;
