//! What the readers of bodies and of simulation definitions stand on: the symbols of tokens, the grammars
//! of expressions, statements and methods in `specs/`, the readers of types, and what a refusal is told with.
#![tactic(auto)]

mod level;
mod lexer;
mod limits;
mod nested;
mod operators;
mod source;
mod symbol;
mod telling;
mod types;

pub use level::Level;
pub use lexer::lexemes;
pub use limits::{LIST_LIMIT, METHOD_LEVELS, NESTING_LIMIT, PHASE_LIMIT};
pub use nested::Nested;
pub use operators::{marks, operator_of, prefix_of};
pub use source::{Source, name_beside, name_of, take_hinted, within};
pub use symbol::{
    ASSIGNMENTS, BASIC, BOUNDS, COUNTING, NAMES, OPERATIONS, SCALARS, STATEMENTS, Symbol, Token,
    UNSIGNED, WHOLES,
};
pub use telling::{told, told_line};
pub use types::{read_basic, scalar_of, unsigned_of};
