use crate::word::{Token, Word};

/// A sum. A `Chain` has a first operand, and after it at least one `Linked`: an operator of one
/// precedence with its operand. However many there are, they nest no deeper.
#[derive(Drop)]
pub enum Expr {
    Name(Token),
    Whole(Token),
    Chain(Box<Expr>, Vec<Expr>),
    Linked(Word, Box<Expr>),
}

/// A statement. The branches of `Choose` and `ChooseOr` are each a `When`. A `Loop` has its name, the
/// number that it begins with, the number below which it stays, and its statement.
#[derive(Drop)]
pub enum Stmt {
    Block(Vec<Stmt>),
    Set(Token, Expr),
    Increment(Token),
    Call(Token),
    List(Token, Vec<Token>),
    Loop(Token, Token, Token, Box<Stmt>),
    When(Expr, Box<Stmt>),
    Choose(Box<Stmt>, Vec<Stmt>),
    ChooseOr(Box<Stmt>, Vec<Stmt>, Box<Stmt>),
}

/// What stands after an `else`: another branch, or the last statement.
#[derive(Drop)]
pub enum Link {
    Onward(Stmt),
    Last(Stmt),
}
