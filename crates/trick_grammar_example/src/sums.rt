//! Sums: one function for all levels of operators, and one for each other production.

ghost use Rattle.std.specs.Prelude.{◌≡◌, [], suc, map};
ghost use Rattle.trick_grammar.specs.Gives.{Gives, class_of};
ghost use Rattle.trick_grammar.specs.Grammar.{any_number};
ghost use Rattle.trick_grammar.specs.Reading.{read};
ghost use Rattle.trick_grammar_example.specs.Statements.{binary, inner, link_at, marks_of, operand, sum};
ghost use Rattle.trick_grammar_example.specs.Trees.{expression_of};
ghost use Rattle.trick_grammar_example.specs.Words.{number_of};

use crate::tree::Expr;
use crate::word::{Token, Word};
use std::alloc::Global;
use trick_grammar::{GrammarStop, Refusal, next_is, next_is_one_of, reason_at, take, take_one_of};

/// The operators of a level of precedence, from the tightest.
fn marks(level: usize) -> &'static [Word]
    ensures { result.now ≡ marks_of level }
{
    match level {
        0 => &[Word::Times],
        1 => &[Word::Plus, Word::Minus],
        _ => &[],
    }
}

/// sum: all levels
pub fn read_sum(
    alloc: Global,
    depth: usize,
    rest: &[Token],
) -> Result<(Expr, &[Token]), GrammarStop<Word>>
    ensures { Gives (λ x. (expression_of x.0, x.1.now)) result
        (read number_of class_of [] (sum depth) rest.now) }
{
    read_binary(alloc, depth, 2, rest)
}

/// The operand, or a level above it.
#[cycle(sums)]
fn read_binary(
    alloc: Global,
    depth: usize,
    level: usize,
    rest: &[Token],
) -> Result<(Expr, &[Token]), GrammarStop<Word>>
    ensures { Gives (λ x. (expression_of x.0, x.1.now)) result
        (read number_of class_of [] (binary level (operand depth)) rest.now) }
{
    if level == 0 {
        return read_operand(alloc, depth, rest);
    }
    read_level(alloc, depth, level - 1, rest)
}

/// level = next { mark next }
#[cycle(sums)]
fn read_level(
    alloc: Global,
    depth: usize,
    level: usize,
    rest: &[Token],
) -> Result<(Expr, &[Token]), GrammarStop<Word>>
    ensures { Gives (λ x. (expression_of x.0, x.1.now)) result
        (read number_of class_of [] (binary (suc level) (operand depth)) rest.now) }
{
    let (first, rest) = read_binary(alloc, depth, level, rest)?;
    let (links, rest) = read_links(alloc, depth, level, rest)?;
    if links.is_empty() {
        return Ok((first, rest));
    }
    Ok((Expr::Chain(Box::new(alloc, first)?, links), rest))
}

/// { mark next }, any number of times
#[cycle(sums)]
fn read_links(
    alloc: Global,
    depth: usize,
    level: usize,
    rest: &[Token],
) -> Result<(Vec<Expr>, &[Token]), GrammarStop<Word>>
    ensures { Gives (λ x. (map expression_of x.0.items, x.1.now)) result
        (read number_of class_of [] (any_number (link_at level (binary level (operand depth))))
        rest.now) }
{
    let mut found = Vec::new(alloc);
    let mut rest = rest;
    while next_is_one_of(rest, marks(level)) {
        let (link, after) = read_link(alloc, depth, level, rest)?;
        found.push(link)?;
        rest = after;
    }
    Ok((found, rest))
}

/// mark next
#[cycle(sums)]
fn read_link(
    alloc: Global,
    depth: usize,
    level: usize,
    rest: &[Token],
) -> Result<(Expr, &[Token]), GrammarStop<Word>>
    ensures { Gives (λ x. (expression_of x.0, x.1.now)) result
        (read number_of class_of [] (link_at level (binary level (operand depth))) rest.now) }
{
    let (mark, rest) = take_one_of(rest, marks(level))?;
    let (operand, rest) = read_binary(alloc, depth, level, rest)?;
    Ok((Expr::Linked(mark.class, Box::new(alloc, operand)?), rest))
}

/// operand = NAME | WHOLE | "(" sum ")"
#[cycle(sums)]
#[tactic(auto, unfolding(crate::specs::Statements::operand_body))]
fn read_operand(
    alloc: Global,
    depth: usize,
    rest: &[Token],
) -> Result<(Expr, &[Token]), GrammarStop<Word>>
    ensures { Gives (λ x. (expression_of x.0, x.1.now)) result
        (read number_of class_of [] (operand depth) rest.now) }
{
    if next_is(rest, Word::Name) {
        let (name, rest) = take(rest, Word::Name)?;
        return Ok((Expr::Name(*name), rest));
    }
    if next_is(rest, Word::Whole) {
        let (number, rest) = take(rest, Word::Whole)?;
        return Ok((Expr::Whole(*number), rest));
    }
    if depth == 0 {
        return read_no_inner(rest);
    }
    read_inner(alloc, depth - 1, rest)
}

/// inner = "(" sum ")"
#[cycle(sums)]
#[tactic(auto, unfolding(crate::specs::Statements::inner_body))]
fn read_inner(
    alloc: Global,
    depth: usize,
    rest: &[Token],
) -> Result<(Expr, &[Token]), GrammarStop<Word>>
    ensures { Gives (λ x. (expression_of x.0, x.1.now)) result
        (read number_of class_of [] (inner (suc depth)) rest.now) }
{
    let (_, rest) = take(rest, Word::OpenParen)?;
    let (value, rest) = read_binary(alloc, depth, 2, rest)?;
    let (_, rest) = take(rest, Word::CloseParen)?;
    Ok((value, rest))
}

#[tactic(auto, unfolding(crate::specs::Statements::inner_body))]
fn read_no_inner(rest: &[Token]) -> Result<(Expr, &[Token]), GrammarStop<Word>>
    ensures { Gives (λ x. (expression_of x.0, x.1.now)) result
        (read number_of class_of [] (inner 0) rest.now) }
{
    Err(GrammarStop::At(reason_at(rest, Refusal::TooDeep, &[Word::OpenParen]), rest))
}
