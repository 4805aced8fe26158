//! The lines that refusals print: for each kind of fault one line, by its code, the text that is refused,
//! and the numbers or names that lead to the mistake. The page FORMATS of the documents has the table.
#![tactic(auto)]

mod check;
mod checkpoint;
mod field;
mod input;
mod join;
mod journal;
pub mod laws;
mod line;
mod name;
mod plan;
mod s_define;
mod text;

pub use check::check_line;
pub use checkpoint::checkpoint_line;
pub use input::input_line;
pub use join::join_line;
pub use journal::{journal_line, length_line};
pub use plan::plan_line;
pub use s_define::s_define_line;
