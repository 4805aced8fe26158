//! The language of simulations: types of variables and memories, the trees of an S_define, programs
//! whose names are resolved, and what their jobs do to a memory, with the laws of it.
#![tactic(auto)]

mod bound;
mod cells;
mod class;
mod fault;
mod job;
pub mod laws;
mod method;
mod object;
mod operator;
mod program;
mod range;
mod scalar;
pub mod syntax;
mod tree;
mod variable;

pub use bound::{BOUND_LIMIT, Bound};
pub use cells::{Cell, Cells};
pub use class::Class;
pub use fault::{FaultKind, JobFault, StatementFault};
pub use job::{Job, JobId};
pub use method::Method;
pub use object::Object;
pub use operator::{Arithmetic, Comparison, Operator, Prefix};
pub use program::Program;
pub use range::CellRange;
pub use scalar::{Scalar, wrap};
pub use tree::{Block, Branch, Change, Choice, Expr, Index, Link, Place, Stmt};
pub use variable::{EnumItem, Variable};
