ghost use Rattle.std.specs.Prelude.{◌≡◌};
ghost use Rattle.trick_body_symbols.specs.Expressions.{nested_first};

use crate::symbol::Symbol;

/// What counts as one level of nesting inside an expression.
#[derive(Clone, Copy)]
pub enum Nested {
    /// A prefix operator and its operand.
    Prefixed,
    /// `( .. )`
    Parenthesized,
    /// `[ .. ]`
    Indexed,
    /// `? .. :`
    Chosen,
}

impl Nested {
    /// What it begins with.
    pub fn first(self) -> &'static [Symbol]
        ensures { result.now ≡ nested_first self }
    {
        match self {
            Nested::Prefixed => &[Symbol::Minus, Symbol::Plus, Symbol::Not, Symbol::Complement],
            Nested::Parenthesized => &[Symbol::OpenParen],
            Nested::Indexed => &[Symbol::OpenBracket],
            Nested::Chosen => &[Symbol::Question],
        }
    }
}
