//! Line files by prefix codes: codes of values and of lines as data, the theorem that reading is exact
//! and that no text of a value is a proper prefix of another, and what printers and loaders share.
#![tactic(auto)]

mod answer;
mod field;
mod form;
mod kind;
pub mod laws;
mod line;
mod load_fault;
mod miss;
mod print;
mod range;
mod stop;
mod word;

pub use answer::{refusal, whole};
pub use field::{free, integer, literal, number};
pub use form::{Place, are_numbers, first_line, kind_of};
pub use kind::Kind;
pub use line::{end_line, feed, integer_line, number_line, row, row_or_none, title, word_line};
pub use load_fault::LoadFault;
pub use miss::Miss;
pub use print::{push_integer, push_line, push_number, push_row, push_title, set_indexed};
pub use range::Range;
pub use stop::LineStop;
pub use word::{behind, one_of, stands_at};
