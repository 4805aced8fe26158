//! A small language of statements and sums, read by the helpers of `trick_grammar`: an example of
//! how a reader is written and proved, and a test of the helpers. It shows what the larger readers
//! need: chains without a limit, operators by levels, lists with a separator, each `else` with its
//! nearest `if`, hints, names taken from the text and in scope, and two reasons for what is wrong with
//! a loop, each with its line.
#![tactic(auto)]

mod lists;
pub mod program;
pub mod simple;
mod source;
mod statements;
mod sums;
mod telling;
pub mod tree;
pub mod word;
