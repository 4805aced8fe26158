//! What the crates of cases share: how a line of their standard input reads, the texts with names that lines make, and
//! the report in which an answer is put together.
#![tactic(auto)]

mod escapes;
mod line;
mod report;
mod texts;

pub use line::{Given, Line};
pub use report::Report;
pub use texts::Texts;
