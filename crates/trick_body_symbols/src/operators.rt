//! What the marks of operators mean.

ghost use Rattle.std.specs.Prelude.{◌≡◌};
ghost use Rattle.trick_body_symbols.specs.Expressions.{marks_of, operator_of, prefix_of};

use crate::symbol::Symbol;
use trick_lang::{Arithmetic, Comparison, Operator, Prefix};

/// The binary operators of a level of precedence, from the tightest at 0.
pub fn marks(level: usize) -> &'static [Symbol]
    ensures { result.now ≡ marks_of level }
{
    match level {
        0 => &[Symbol::Times, Symbol::Divide, Symbol::Remainder],
        1 => &[Symbol::Plus, Symbol::Minus],
        2 => &[Symbol::ShiftLeft, Symbol::ShiftRight],
        3 => &[
            Symbol::Less,
            Symbol::AtMost,
            Symbol::Greater,
            Symbol::AtLeast,
        ],
        4 => &[Symbol::Equal, Symbol::NotEqual],
        5 => &[Symbol::BitAnd],
        6 => &[Symbol::BitXor],
        7 => &[Symbol::BitOr],
        8 => &[Symbol::And],
        9 => &[Symbol::Or],
        _ => &[],
    }
}

/// The operator of a mark between two operands.
pub fn operator_of(mark: Symbol) -> Operator
    ensures { result ≡ operator_of mark }
{
    match mark {
        Symbol::Times => Operator::Arithmetic(Arithmetic::Times),
        Symbol::Divide => Operator::Arithmetic(Arithmetic::Divide),
        Symbol::Remainder => Operator::Arithmetic(Arithmetic::Remainder),
        Symbol::Plus => Operator::Arithmetic(Arithmetic::Plus),
        Symbol::Minus => Operator::Arithmetic(Arithmetic::Minus),
        Symbol::ShiftLeft => Operator::Arithmetic(Arithmetic::ShiftLeft),
        Symbol::ShiftRight => Operator::Arithmetic(Arithmetic::ShiftRight),
        Symbol::BitAnd => Operator::Arithmetic(Arithmetic::BitAnd),
        Symbol::BitXor => Operator::Arithmetic(Arithmetic::BitXor),
        Symbol::BitOr => Operator::Arithmetic(Arithmetic::BitOr),
        Symbol::Less => Operator::Comparison(Comparison::Less),
        Symbol::AtMost => Operator::Comparison(Comparison::AtMost),
        Symbol::Greater => Operator::Comparison(Comparison::Greater),
        Symbol::AtLeast => Operator::Comparison(Comparison::AtLeast),
        Symbol::Equal => Operator::Comparison(Comparison::Equal),
        Symbol::NotEqual => Operator::Comparison(Comparison::NotEqual),
        Symbol::And => Operator::And,
        _ => Operator::Or,
    }
}

/// The operator of a mark before its operand.
pub fn prefix_of(mark: Symbol) -> Prefix
    ensures { result ≡ prefix_of mark }
{
    match mark {
        Symbol::Minus => Prefix::Negate,
        Symbol::Plus => Prefix::Keep,
        Symbol::Not => Prefix::Not,
        _ => Prefix::Complement,
    }
}
