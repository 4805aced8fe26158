//! Cuts a text into tokens, in the three styles of this project: simulation definitions, input
//! files and commands, up to its first fault. It also reads the numbers that tokens stand for, and
//! times, which are written in seconds and counted in tics of a millionth of a second.
#![tactic(auto)]

mod bytes;
mod fault;
pub mod laws;
mod number;
mod piece;
mod scan;
mod time;
mod token;
mod value;

pub use fault::{FirstFault, TextFault, TimeFault};
pub use number::{WHOLE_LIMIT, is_plain_number, plain_number, whole};
pub use scan::{CutText, TEXT_LIMIT, cut, last_line, tokens};
pub use time::seconds;
pub use token::{Style, Token, TokenKind};
pub use value::number_of;
