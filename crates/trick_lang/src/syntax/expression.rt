use crate::{Operator, Prefix};
use trick_base::Word;

/// An expression. Parentheses leave no trace.
#[derive(Drop)]
#[cycle(written_expression)]
pub enum Expr {
    /// A whole literal as it is written, at most 2^63.
    Whole { line: u32, number: u64 },
    /// `true` or `false`.
    Truth { line: u32, value: bool },
    /// A place, or an enum item.
    Named(Path),
    /// A prefix operator and its operand.
    Prefixed(Prefix, Box<Expr>),
    /// A first operand, then operators of one precedence, each with its operand, grouped from the
    /// left. There is at least one operator.
    Chain(Box<Expr>, Vec<Link>),
    /// The tests of a `?:` chain with their values, of which there is at least one, and its last
    /// part.
    Choose(Vec<Choice>, Box<Expr>),
}

/// An operator of a chain and the operand after it.
#[derive(Drop)]
#[cycle(written_expression)]
pub struct Link {
    pub operator: Operator,
    pub operand: Expr,
}

/// A test of a `?:` chain and the value where it holds.
#[derive(Drop)]
#[cycle(written_expression)]
pub struct Choice {
    pub test: Expr,
    pub value: Expr,
}

/// A place: its first name, the line of that, and what follows.
#[derive(Drop)]
#[cycle(written_expression)]
pub struct Path {
    pub line: u32,
    pub name: Word,
    pub parts: Vec<Part>,
}

/// A part of a place after its first name: `.name`, with the line of the name, or `[at]`.
#[derive(Drop)]
#[cycle(written_expression)]
pub enum Part {
    Member { line: u32, name: Word },
    Index(Expr),
}
