ghost use Rattle.std.specs.Prelude.{◌≡◌, IfOk, None, Some, [], List, ℕ};
ghost use Rattle.trick_body_symbols.specs.Lexemes.{lexemes_of};
ghost use Rattle.trick_body_symbols.specs.Symbols.{number_of};
ghost use Rattle.trick_plan_variables.specs.Grammar.{declaration, declaration_in, declaration_of, length, lengths, read_or_none};
ghost use Rattle.trick_grammar.specs.Gives.{Gives, class_of};
ghost use Rattle.trick_grammar.specs.Reading.{read};
ghost use Rattle.trick_grammar.specs.Text.{read_all};
ghost use Rattle.trick_text.specs.Tokens.{AreAllTokens};
ghost use Rattle.trick_text.specs.declared.token.Style.TheVariants.{Command};

use crate::SpelledDeclaration;
use std::alloc::{AllocError, Global};
use trick_base::{Items, Word};
use trick_body_symbols::{NAMES, Symbol, Token, lexemes, name_of, read_basic};
use trick_grammar::{GrammarStop, next_is, take, take_one_of};
use trick_lang::Scalar;
use trick_text::{Style, TextFault, tokens};

/// A declaration: the type of a variable, its name, and the lengths of its array, of which there are
/// none, one or two.
#[derive(Debug, Drop)]
pub struct Declaration {
    pub scalar: Scalar,
    pub name: Word,
    pub lengths: Items<u64>,
}

// The whole numbers that a length can be.
const COUNTS: [Symbol; 4] = [Symbol::One, Symbol::Small, Symbol::Large, Symbol::Huge];

// "[" WHOLE "]"
fn read_length(rest: &[Token]) -> Result<(u64, &[Token]), GrammarStop<Symbol>>
    ensures { Gives (λ x. (x.0, x.1.now)) result (read number_of class_of [] length rest.now) }
{
    let (_, rest) = take(rest, Symbol::OpenBracket)?;
    let (number, rest) = take_one_of(rest, &COUNTS)?;
    let (_, rest) = take(rest, Symbol::CloseBracket)?;
    Ok((number.number, rest))
}

// [ "[" WHOLE "]" [ "[" WHOLE "]" ] ]
fn read_lengths<'a>(
    alloc: Global,
    rest: &'a [Token],
) -> Result<(Items<u64>, &'a [Token]), GrammarStop<'a, Symbol>>
    ensures { Gives (λ x. (x.0, x.1.now)) result (read number_of class_of [] lengths rest.now) }
{
    let mut found = Items::new(alloc);
    if !next_is(rest, Symbol::OpenBracket) {
        return Ok((found, rest));
    }
    let (first, rest) = read_length(rest)?;
    found.push(first)?;
    if !next_is(rest, Symbol::OpenBracket) {
        return Ok((found, rest));
    }
    let (second, rest) = read_length(rest)?;
    found.push(second)?;
    Ok((found, rest))
}

// declaration = basic NAME [ "[" WHOLE "]" [ "[" WHOLE "]" ] ]
fn read_front<'a>(
    alloc: Global,
    text: &[u8],
    rest: &'a [Token],
) -> Result<(Declaration, &'a [Token]), GrammarStop<'a, Symbol>>
    ensures { Gives (λ x. (x.0, x.1.now)) result (read number_of class_of [] (declaration text.now) rest.now) }
{
    let ((_, scalar), rest) = read_basic(rest)?;
    let (name, rest) = take_one_of(rest, &NAMES)?;
    let (lengths, rest) = read_lengths(alloc, rest)?;
    let declaration = Declaration {
        scalar,
        name: name_of(alloc, text, name)?,
        lengths,
    };
    Ok((declaration, rest))
}

// The declaration that these are all the tokens of.
fn read_all(alloc: Global, text: &[u8], tokens: &[Token]) -> Result<Option<Declaration>, AllocError>
    ensures { IfOk result (λ read. read
        ≡ read_or_none (read_all number_of class_of (declaration text.now) tokens.now)) }
{
    match read_front(alloc, text, tokens) {
        Ok((declaration, rest)) => {
            if rest.is_empty() {
                Ok(Some(declaration))
            } else {
                Ok(None)
            }
        }
        Err(GrammarStop::Memory) => Err(AllocError),
        Err(GrammarStop::At(_, _)) => Ok(None),
    }
}

// What all tokens of a text declare.
fn declaration_of(
    alloc: Global,
    text: &[u8],
    tokens: &[trick_text::Token],
) -> Result<Option<SpelledDeclaration>, AllocError>
    requires { AreAllTokens Command text.now tokens.now }
    ensures { IfOk result (λ known. declaration_in known ≡ declaration_of text.now tokens.now) }
{
    trick_text::laws::all_are_tokens();
    let found = lexemes(alloc, text, tokens)?;
    match read_all(alloc, text, &found)? {
        Some(declaration) => Ok(Some(SpelledDeclaration { declaration })),
        None => Ok(None),
    }
}

impl SpelledDeclaration {
    ghost use Rattle.trick_plan_variables.specs.Grammar.{Declares, declaration_in};

    /// What a text declares: a type, a name, and up to two lengths in brackets, as `int spare[2]`.
    /// `None` where it is no declaration. FORMATS.md has its form.
    pub fn read(alloc: Global, text: &[u8]) -> Result<Option<SpelledDeclaration>, AllocError>
        ensures { IfOk result (λ known. Declares text.now (declaration_in known)) }
    {
        trick_text::laws::refused_has_none();
        match tokens(alloc, text, Style::Command) {
            Ok(found) => declaration_of(alloc, text, &found),
            Err(TextFault::OutOfMemory) => Err(AllocError),
            Err(_) => Ok(None),
        }
    }
}
