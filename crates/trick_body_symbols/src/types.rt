//! The scalar types that are written by keywords.

ghost use Rattle.std.specs.Prelude.{◌≡◌, [], Some};
ghost use Rattle.trick_body_symbols.specs.Statements.{basic, scalar_of, unsigned_of};
ghost use Rattle.trick_body_symbols.specs.Symbols.{number_of};
ghost use Rattle.trick_grammar.specs.Gives.{Gives, class_of};
ghost use Rattle.trick_grammar.specs.Reading.{read};

use crate::symbol::{SCALARS, Symbol, Token, UNSIGNED};
use trick_grammar::{GrammarStop, next_is_one_of, take, take_one_of};
use trick_lang::Scalar;

/// The type of a keyword that is one by itself.
pub fn scalar_of(word: Symbol) -> Scalar
    ensures { result ≡ scalar_of word }
{
    match word {
        Symbol::Bool => Scalar::Bool,
        Symbol::Char => Scalar::Char,
        Symbol::Short => Scalar::Short,
        Symbol::Int => Scalar::Int,
        _ => Scalar::Long,
    }
}

/// The type of `unsigned` and the keyword after it.
pub fn unsigned_of(more: &Token) -> Scalar
    ensures { result ≡ unsigned_of (Some more.now) }
{
    match more.class {
        Symbol::Char => Scalar::UChar,
        Symbol::Short => Scalar::UShort,
        _ => Scalar::UInt,
    }
}

/// basic = "bool" | "char" | "short" | "int" | "long" | "unsigned" [ "char" | "short" | "int" ]; its
/// line and the type.
#[tactic(auto, unfolding(crate::specs::Statements::basic_body))]
pub fn read_basic<'a>(
    rest: &'a [Token],
) -> Result<((u32, Scalar), &'a [Token]), GrammarStop<'a, Symbol>>
    ensures { Gives (λ x. (x.0, x.1.now)) result (read number_of class_of [] basic rest.now) }
{
    if next_is_one_of(rest, &SCALARS) {
        let (word, rest) = take_one_of(rest, &SCALARS)?;
        return Ok(((word.line, scalar_of(word.class)), rest));
    }
    let (word, rest) = take(rest, Symbol::Unsigned)?;
    if next_is_one_of(rest, &UNSIGNED) {
        let (more, rest) = take_one_of(rest, &UNSIGNED)?;
        return Ok(((word.line, unsigned_of(more)), rest));
    }
    Ok(((word.line, Scalar::UInt), rest))
}
