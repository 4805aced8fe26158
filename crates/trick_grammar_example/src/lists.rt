//! Lists with separators.

ghost use Rattle.std.specs.Prelude.{◌-◌, ◌∷◌, []};
ghost use Rattle.trick_grammar.specs.Gives.{Gives, class_of};
ghost use Rattle.trick_grammar.specs.Reading.{prefixed, read};
ghost use Rattle.trick_grammar_example.specs.Statements.{items, items_behind, list_statement};
ghost use Rattle.trick_grammar_example.specs.Trees.{statement_of};
ghost use Rattle.trick_grammar_example.specs.Words.{number_of};

use crate::tree::Stmt;
use crate::word::{Token, Word};
use std::alloc::Global;
use trick_grammar::{GrammarStop, Refusal, next_is, take};

/// list = "enum" NAME "{" items "}" ";"
#[tactic(auto, unfolding(crate::specs::Statements::list_body))]
pub fn read_list(
    alloc: Global,
    limit: usize,
    rest: &[Token],
) -> Result<(Stmt, &[Token]), GrammarStop<Word>>
    ensures { Gives (λ x. (statement_of x.0, x.1.now)) result
        (read number_of class_of [] (list_statement limit) rest.now) }
{
    let (_, rest) = take(rest, Word::Enum)?;
    let (name, rest) = take(rest, Word::Name)?;
    let (_, rest) = take(rest, Word::OpenBrace)?;
    let (items, rest) = read_items(alloc, limit, rest)?;
    let (_, rest) = take(rest, Word::CloseBrace)?;
    let (_, rest) = take(rest, Word::Semicolon)?;
    Ok((Stmt::List(*name, items), rest))
}

/// items = NAME { "," NAME } [ "," ]
#[tactic(auto, unfolding(trick_grammar::specs::Separated::separated_body))]
fn read_items(
    alloc: Global,
    limit: usize,
    rest: &[Token],
) -> Result<(Vec<Token>, &[Token]), GrammarStop<Word>>
    ensures { Gives (λ x. (x.0.items, x.1.now)) result
        (read number_of class_of [] (items limit) rest.now) }
{
    let (first, rest) = take(rest, Word::Name)?;
    read_more_items(alloc, limit, *first, rest)
}

/// { "," NAME } [ "," ], after the first item
fn read_more_items(
    alloc: Global,
    limit: usize,
    first: Token,
    rest: &[Token],
) -> Result<(Vec<Token>, &[Token]), GrammarStop<Word>>
    ensures { Gives (λ x. (x.0.items, x.1.now)) result
        (prefixed (first ∷ []) (read number_of class_of [] (items_behind (limit - 1)) rest.now)) }
{
    let mut found = Vec::new(alloc);
    found.push(first)?;
    let mut rest = rest;
    while next_is(rest, Word::Comma) {
        let (_, after) = take(rest, Word::Comma)?;
        if !next_is(after, Word::Name) {
            return Ok((found, after));
        }
        if found.len() >= limit {
            return Err(GrammarStop::At(Refusal::TooLong, after));
        }
        let (item, after) = take(after, Word::Name)?;
        found.push(*item)?;
        rest = after;
    }
    Ok((found, rest))
}
