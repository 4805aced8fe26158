use crate::{Arithmetic, Bound, Operator, Prefix, Scalar};
use trick_base::Items;

/// A resolved expression, whose value is a signed number of 64 bits.
#[derive(Drop)]
#[cycle(expression)]
pub enum Expr {
    /// A literal, wrapped to 64 bits, or an enum item.
    Number(i64),
    /// A local variable, by its slot.
    Local(u32),
    /// The number that a cell holds.
    Cell(Place),
    /// A prefix operator and its operand.
    Prefixed(Prefix, Box<Expr>),
    /// A first operand, then operators of one precedence, each with its operand.
    Chain(Box<Expr>, Vec<Link>),
    /// The tests of a `?:` chain with their values, and its last part.
    Choose(Vec<Choice>, Box<Expr>),
}

/// An operator of a chain and the operand after it.
#[derive(Drop)]
#[cycle(expression)]
pub struct Link {
    pub operator: Operator,
    pub operand: Expr,
}

/// A test of a `?:` chain and the value where it holds.
#[derive(Drop)]
#[cycle(expression)]
pub struct Choice {
    pub test: Expr,
    pub value: Expr,
}

/// A place in the memory. Its cell is `first + offset` and what its computed indexes add.
#[derive(Drop)]
#[cycle(expression)]
pub struct Place {
    /// Whether `first` is counted from the first cell of the job's object, and not from cell 0.
    pub own: bool,
    /// The first cell of what the path names before its first computed index.
    pub first: u32,
    /// How many cells that has; the place is one of them.
    pub span: u32,
    /// What the members and literal indexes after the first computed index add.
    pub offset: u32,
    /// How many literal indexes the path has, which count as steps.
    pub literals: u64,
    /// The computed indexes, left to right.
    pub indexes: Vec<Index>,
}

/// A computed index: an element of an array of `length` elements of `stride` cells.
#[derive(Drop)]
#[cycle(expression)]
pub struct Index {
    pub length: u32,
    pub stride: u32,
    pub at: Expr,
}

/// What an assignment does to its place: `= e`, `op= e`, `++` and `--`.
#[derive(Drop)]
pub enum Change {
    Set(Expr),
    Update(Arithmetic, Expr),
    Increase,
    Decrease,
}

/// A resolved statement. `line` is the line of its fault. What the text nests in it stands in blocks
/// of their own, by number.
#[derive(Drop)]
pub enum Stmt {
    Empty,
    /// A new local variable in its slot, which holds 0 and then its value, where one is written.
    Declare {
        line: u32,
        slot: u32,
        scalar: Scalar,
        value: Option<Expr>,
    },
    /// An assignment to a local variable of this type.
    SetLocal {
        line: u32,
        slot: u32,
        scalar: Scalar,
        change: Change,
    },
    /// An assignment to a place in the memory.
    Assign {
        line: u32,
        place: Place,
        change: Change,
    },
    /// The tests of an `else if` chain with their blocks, and the block after the last `else`, if
    /// there is one.
    If {
        branches: Vec<Branch>,
        otherwise: Option<u32>,
    },
    /// A loop whose variable, in its slot, has the numbers from `from` to the bound in turn.
    For {
        slot: u32,
        from: u64,
        bound: Bound,
        block: u32,
    },
    /// An inner block, or a call: the block of the method.
    Run(u32),
}

/// An `if` of an `else if` chain: its line, its test and its block.
#[derive(Drop)]
pub struct Branch {
    pub line: u32,
    pub test: Expr,
    pub block: u32,
}

/// Statements one after another: the body of a method, of a branch or of a loop, or an inner block.
#[derive(Drop)]
pub struct Block {
    /// The class of whose methods it is a part, by number.
    pub class: u32,
    pub statements: Items<Stmt>,
    /// How many frames a run of the block needs on a stack, itself included.
    pub deep: u64,
}
