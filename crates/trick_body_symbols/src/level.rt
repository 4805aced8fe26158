//! The levels of nesting of statements.

ghost use Rattle.std.specs.Prelude.{◌≡◌};
ghost use Rattle.trick_body_symbols.specs.Statements.{level_first};

use crate::symbol::Symbol;

/// What counts as one level of nesting, beside the statement of an `if`, an `else` or a `for` that is
/// no block.
#[derive(Clone, Copy)]
pub enum Level {
    Block,
    If,
    For,
}

impl Level {
    /// What it begins with.
    pub fn first(self) -> &'static [Symbol]
        ensures { result.now ≡ level_first self }
    {
        match self {
            Level::Block => &[Symbol::OpenBrace],
            Level::If => &[Symbol::If],
            Level::For => &[Symbol::For],
        }
    }
}
