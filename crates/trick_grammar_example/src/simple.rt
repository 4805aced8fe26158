//! Statements that hold no other.

ghost use Rattle.std.specs.Prelude.{◌≡◌, []};
ghost use Rattle.trick_grammar.specs.Gives.{Gives, class_of};
ghost use Rattle.trick_grammar.specs.Reading.{read};
ghost use Rattle.trick_grammar_example.specs.Deeds.{deed_of};
ghost use Rattle.trick_grammar_example.specs.Statements.{bound, called, done, free, simple};
ghost use Rattle.trick_grammar_example.specs.Trees.{statement_of};
ghost use Rattle.trick_grammar_example.specs.Words.{number_of};

use crate::source::Source;
use crate::sums::read_sum;
use crate::tree::{Expr, Stmt};
use crate::word::{Token, Word};
use std::alloc::Global;
use trick_grammar::{GrammarStop, Refusal, is_in_scope, next_is, reason_at, take, take_hinted};

/// What a simple statement does to its name.
#[derive(Drop)]
pub enum Deed {
    Sets(Expr),
    Increments,
    Calls,
}

/// called = "(" ")" ";"
#[tactic(auto, unfolding(crate::specs::Statements::called_body))]
fn read_called(rest: &[Token]) -> Result<(Deed, &[Token]), GrammarStop<Word>>
    ensures { Gives (λ x. (deed_of x.0, x.1.now)) result (read number_of class_of [] called rest.now) }
{
    let (_, rest) = take(rest, Word::OpenParen)?;
    let (_, rest) = take(rest, Word::CloseParen)?;
    let (_, rest) = take(rest, Word::Semicolon)?;
    Ok((Deed::Calls, rest))
}

/// free = called | ( "=" sum | "++" ) ";"
#[tactic(auto, unfolding(crate::specs::Statements::free_body))]
fn read_free(
    alloc: Global,
    depth: usize,
    rest: &[Token],
) -> Result<(Deed, &[Token]), GrammarStop<Word>>
    ensures { Gives (λ x. (deed_of x.0, x.1.now)) result
        (read number_of class_of [] (free depth) rest.now) }
{
    if next_is(rest, Word::OpenParen) {
        return read_called(rest);
    }
    if next_is(rest, Word::Assign) {
        let (_, rest) = take(rest, Word::Assign)?;
        let (value, rest) = read_sum(alloc, depth, rest)?;
        let (_, rest) = take(rest, Word::Semicolon)?;
        return Ok((Deed::Sets(value), rest));
    }
    let (_, rest) = take(rest, Word::Increment)?;
    let (_, rest) = take(rest, Word::Semicolon)?;
    Ok((Deed::Increments, rest))
}

/// What may stand after the name of a loop round it: that name may be called, and is not assigned.
#[tactic(auto, unfolding(crate::specs::Statements::bound_body))]
fn read_bound(rest: &[Token]) -> Result<(Deed, &[Token]), GrammarStop<Word>>
    ensures { Gives (λ x. (deed_of x.0, x.1.now)) result (read number_of class_of [] bound rest.now) }
{
    if next_is(rest, Word::OpenParen) {
        return read_called(rest);
    }
    Err(GrammarStop::At(
        reason_at(rest, Refusal::BadLoop, &[Word::Assign, Word::Increment]),
        rest,
    ))
}

fn done(name: Token, deed: Deed) -> Stmt
    ensures { statement_of result ≡ done name (deed_of deed) }
{
    match deed {
        Deed::Sets(value) => Stmt::Set(name, value),
        Deed::Increments => Stmt::Increment(name),
        Deed::Calls => Stmt::Call(name),
    }
}

/// simple = NAME ( bound | free ), by whether it is the name of a loop round it
#[tactic(auto, unfolding(crate::specs::Statements::simple_body))]
pub fn read_simple<'a>(
    alloc: Global,
    source: Source,
    depth: usize,
    rest: &'a [Token],
) -> Result<(Stmt, &'a [Token]), GrammarStop<'a, Word>>
    ensures { Gives (λ x. (statement_of x.0, x.1.now)) result
        (read number_of class_of source.entry.scope.now (simple source.entry.text.now depth) rest.now) }
{
    let (name, rest) = take_hinted(rest, Word::Name, Refusal::Expected)?;
    let (deed, rest) = if is_in_scope(source.text, source.scope, name) {
        read_bound(rest)?
    } else {
        read_free(alloc, depth, rest)?
    };
    Ok((done(*name, deed), rest))
}
