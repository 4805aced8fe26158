use crate::syntax::{Expr, Path};
use crate::{Arithmetic, Bound, Scalar};
use trick_base::Word;

/// A written type: a scalar by its keywords, or the name of an enum, a struct or a class with its
/// line.
#[derive(Drop)]
pub enum TypeName {
    Basic(Scalar),
    Custom { line: u32, name: Word },
}

/// What an assignment does to its place: `= e`, `op= e`, `++` and `--`.
#[derive(Drop)]
pub enum Change {
    Set(Expr),
    Update(Arithmetic, Expr),
    Increase,
    Decrease,
}

/// A statement. `line` is the line of its first token.
#[derive(Drop)]
#[cycle(written_statement)]
pub enum Stmt {
    Empty,
    Block(Vec<Stmt>),
    /// A local variable.
    Declare {
        line: u32,
        written: TypeName,
        name: Word,
        value: Option<Expr>,
    },
    Assign {
        line: u32,
        path: Path,
        change: Change,
    },
    /// The tests of an `else if` chain with their statements, of which there is at least one, and
    /// what stands after the last `else`, if there is one.
    If {
        branches: Vec<Branch>,
        otherwise: Option<Box<Stmt>>,
    },
    /// A loop: its variable, its first number, at most 2^63, its bound and its statement.
    For {
        name: Word,
        from: u64,
        bound: Bound,
        body: Box<Stmt>,
    },
    /// A call of a method.
    Call {
        line: u32,
        name: Word,
    },
}

/// An `if` of an `else if` chain: the line of the `if`, its test and its statement.
#[derive(Drop)]
#[cycle(written_statement)]
pub struct Branch {
    pub line: u32,
    pub test: Expr,
    pub body: Stmt,
}
