//! The readers of expressions, statements and methods: one for each production of the grammars of
//! `trick_body_symbols`, each from a cursor of its caller.
#![tactic(auto)]

mod expressions;
mod methods;
mod simple;
mod statements;

pub use expressions::read_expression;
pub use methods::{read_int_inside, read_int_rest, read_method, read_void_inside, read_void_rest};
pub use statements::read_statements;
