//! What calls of the readers and the writers of texts come to, case by case. A line is a call with its words and, after
//! a colon, its text, as `tokens s_define : a = 0x1F;`. The line is printed, and below it what the call answers, two
//! blanks to the right. An empty line and the head of a section are printed as they are, and so are lines of bytes, with
//! which the text of the next call begins. A comment is not printed.
#![tactic(auto)]

mod bodies;
mod call;
mod cases;
mod commands;
mod declarations;
mod dues;
mod inputs;
mod lists;
mod names;
mod orders;
mod outside;
mod scans;
mod settings;
mod texts;

pub use cases::Cases;
