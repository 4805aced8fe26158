//! Readers of texts by their grammars: grammars as data, with the theorem that reading by one token
//! ahead is exact for each grammar that passes a test, and what readers in code share.
#![tactic(auto)]

mod cursor;
pub mod laws;
mod lexeme;
mod refusal;
mod stop;

pub use cursor::{
    hinted, is_in_scope, line_of, next_is, next_is_one_of, reason_at, take, take_again,
    take_hinted, take_one_of, text_of,
};
pub use lexeme::{Class, Lexeme};
pub use refusal::Refusal;
pub use stop::GrammarStop;
