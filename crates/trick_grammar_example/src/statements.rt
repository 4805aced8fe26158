//! Statements that hold others: one function for each production, with its line of the grammar.

ghost use Rattle.std.specs.Prelude.{◌≡◌, suc, map, option_map};
ghost use Rattle.trick_grammar.specs.Gives.{Gives, class_of};
ghost use Rattle.trick_grammar.specs.Grammar.{repetition, nearest};
ghost use Rattle.trick_grammar.specs.Reading.{read};
ghost use Rattle.trick_grammar_example.specs.Statements.{block_with, choice_with, header, link, loop_with, other_with, plain_header, scoped_with, statement, turns_with, when_with};
ghost use Rattle.trick_grammar_example.specs.Trees.{link_of, statement_of, statements_of};
ghost use Rattle.trick_grammar_example.specs.Words.{number_of};

use crate::lists::read_list;
use crate::simple::read_simple;
use crate::source::{Source, within};
use crate::sums::read_sum;
use crate::tree::{Link, Stmt};
use crate::word::{Token, Word};
use std::alloc::Global;
use trick_grammar::{
    GrammarStop, Refusal, hinted, next_is, next_is_one_of, take, take_again, take_hinted,
};

// What a statement begins with.
const STATEMENTS: [Word; 5] = [Word::If, Word::OpenBrace, Word::For, Word::Enum, Word::Name];

/// block = "{" { statement } "}"
#[cycle(statements)]
#[tactic(auto, unfolding(crate::specs::Statements::block_body))]
fn read_block<'a>(
    alloc: Global,
    source: Source,
    depth: usize,
    rest: &'a [Token],
) -> Result<(Vec<Stmt>, &'a [Token]), GrammarStop<'a, Word>>
    ensures { Gives (λ x. (statements_of (map statement_of x.0.items), x.1.now)) result
        (read number_of class_of source.entry.scope.now
        (block_with source.entry.text.now source.entry.limit
        (statement source.entry.text.now source.entry.limit depth)) rest.now) }
{
    let (_, rest) = take(rest, Word::OpenBrace)?;
    let (statements, rest) = read_statements(alloc, source, depth, rest)?;
    let (_, rest) = take(rest, Word::CloseBrace)?;
    Ok((statements, rest))
}

/// { statement }
#[cycle(statements)]
pub fn read_statements<'a>(
    alloc: Global,
    source: Source,
    depth: usize,
    rest: &'a [Token],
) -> Result<(Vec<Stmt>, &'a [Token]), GrammarStop<'a, Word>>
    ensures { Gives (λ x. (map statement_of x.0.items, x.1.now)) result
        (read number_of class_of source.entry.scope.now
        (repetition source.entry.limit (statement source.entry.text.now source.entry.limit depth)) rest.now) }
{
    let mut found = Vec::new(alloc);
    let mut rest = rest;
    while next_is_one_of(rest, &STATEMENTS) {
        if found.len() >= source.limit {
            return Err(GrammarStop::At(Refusal::TooLong, rest));
        }
        let (statement, after) = read_statement(alloc, source, depth, rest)?;
        found.push(statement)?;
        rest = after;
    }
    Ok((found, rest))
}

/// when = "if" "(" sum ")" statement
#[cycle(statements)]
#[tactic(auto, unfolding(crate::specs::Statements::when_body))]
fn read_when<'a>(
    alloc: Global,
    source: Source,
    depth: usize,
    rest: &'a [Token],
) -> Result<(Stmt, &'a [Token]), GrammarStop<'a, Word>>
    ensures { Gives (λ x. (statement_of x.0, x.1.now)) result
        (read number_of class_of source.entry.scope.now
        (when_with source.entry.text.now source.entry.limit depth
        (statement source.entry.text.now source.entry.limit depth)) rest.now) }
{
    let (_, rest) = take(rest, Word::If)?;
    let (_, rest) = take(rest, Word::OpenParen)?;
    let (test, rest) = read_sum(alloc, depth, rest)?;
    let (_, rest) = take(rest, Word::CloseParen)?;
    let (then, rest) = read_statement(alloc, source, depth, rest)?;
    Ok((Stmt::When(test, Box::new(alloc, then)?), rest))
}

/// choice = when { "else" when } [ "else" other ]
#[cycle(statements)]
#[tactic(auto, unfolding(crate::specs::Statements::choice_body))]
fn read_choice<'a>(
    alloc: Global,
    source: Source,
    depth: usize,
    rest: &'a [Token],
) -> Result<(Stmt, &'a [Token]), GrammarStop<'a, Word>>
    ensures { Gives (λ x. (statement_of x.0, x.1.now)) result
        (read number_of class_of source.entry.scope.now
        (choice_with source.entry.text.now source.entry.limit depth
        (statement source.entry.text.now source.entry.limit depth)
        (other_with source.entry.text.now source.entry.limit depth
        (statement source.entry.text.now source.entry.limit depth))) rest.now) }
{
    let (first, rest) = read_when(alloc, source, depth, rest)?;
    let ((branches, otherwise), rest) = read_links(alloc, source, depth, rest)?;
    let first = Box::new(alloc, first)?;
    match otherwise {
        None => Ok((Stmt::Choose(first, branches), rest)),
        Some(last) => Ok((
            Stmt::ChooseOr(first, branches, Box::new(alloc, last)?),
            rest,
        )),
    }
}

/// { "else" when } [ "else" other ]
#[cycle(statements)]
fn read_links<'a>(
    alloc: Global,
    source: Source,
    depth: usize,
    rest: &'a [Token],
) -> Result<((Vec<Stmt>, Option<Stmt>), &'a [Token]), GrammarStop<'a, Word>>
    ensures { Gives (λ x. ((map statement_of x.0.0.items, option_map statement_of x.0.1), x.1.now)) result
        (read number_of class_of source.entry.scope.now
        (nearest (link source.entry.text.now source.entry.limit depth)) rest.now) }
{
    let mut found = Vec::new(alloc);
    let mut rest = rest;
    while next_is(rest, Word::Else) {
        let (link, after) = read_link(alloc, source, depth, rest)?;
        rest = after;
        match link {
            Link::Onward(branch) => found.push(branch)?,
            Link::Last(last) => return Ok(((found, Some(last)), rest)),
        }
    }
    Ok(((found, None), rest))
}

/// link = "else" ( when | other )
#[cycle(statements)]
#[tactic(auto, unfolding(crate::specs::Statements::link_body))]
fn read_link<'a>(
    alloc: Global,
    source: Source,
    depth: usize,
    rest: &'a [Token],
) -> Result<(Link, &'a [Token]), GrammarStop<'a, Word>>
    ensures { Gives (λ x. (link_of x.0, x.1.now)) result
        (read number_of class_of source.entry.scope.now
        (link source.entry.text.now source.entry.limit depth) rest.now) }
{
    let (_, rest) = take(rest, Word::Else)?;
    if next_is(rest, Word::If) {
        let (branch, rest) = read_when(alloc, source, depth, rest)?;
        return Ok((Link::Onward(branch), rest));
    }
    let (last, rest) = read_other(alloc, source, depth, rest)?;
    Ok((Link::Last(last), rest))
}

/// loop = "for" "(" v header statement, with v in scope
#[cycle(statements)]
#[tactic(auto, unfolding(crate::specs::Statements::loop_body))]
fn read_loop<'a>(
    alloc: Global,
    source: Source,
    depth: usize,
    rest: &'a [Token],
) -> Result<(Stmt, &'a [Token]), GrammarStop<'a, Word>>
    ensures { Gives (λ x. (statement_of x.0, x.1.now)) result
        (read number_of class_of source.entry.scope.now
        (loop_with source.entry.text.now (statement source.entry.text.now source.entry.limit depth)) rest.now) }
{
    let (_, rest) = take(rest, Word::For)?;
    let (_, rest) = take_hinted(rest, Word::OpenParen, Refusal::BadHeader)?;
    let ((name, (from, to), body), rest) = read_scoped(alloc, source, depth, rest)?;
    Ok((Stmt::Loop(*name, *from, *to, Box::new(alloc, body)?), rest))
}

/// v header statement, with v in scope
#[cycle(statements)]
fn read_scoped<'a>(
    alloc: Global,
    source: Source,
    depth: usize,
    rest: &'a [Token],
) -> Result<((&'a Token, (&'a Token, &'a Token), Stmt), &'a [Token]), GrammarStop<'a, Word>>
    ensures { Gives (λ x. ((x.0.0.now, ((x.0.1.0.now, x.0.1.1.now), statement_of x.0.2)), x.1.now)) result
        (read number_of class_of source.entry.scope.now
        (scoped_with source.entry.text.now (statement source.entry.text.now source.entry.limit depth))
        rest.now) }
{
    let (name, rest) = take_hinted(rest, Word::Name, Refusal::BadHeader)?;
    let scope = within(alloc, name, source.scope)?;
    let inner = Source {
        text: source.text,
        limit: source.limit,
        scope: scope.as_slice(),
    };
    let ((header, body), rest) = read_turns(alloc, inner, depth, rest)?;
    Ok(((name, header, body), rest))
}

/// header statement, in the scope of v
#[cycle(statements)]
fn read_turns<'a>(
    alloc: Global,
    source: Source,
    depth: usize,
    rest: &'a [Token],
) -> Result<(((&'a Token, &'a Token), Stmt), &'a [Token]), GrammarStop<'a, Word>>
    ensures { Gives (λ x. (((x.0.0.0.now, x.0.0.1.now), statement_of x.0.1), x.1.now)) result
        (read number_of class_of source.entry.scope.now
        (turns_with source.entry.text.now (statement source.entry.text.now source.entry.limit depth))
        rest.now) }
{
    let (header, rest) = read_header(source, rest)?;
    let (body, rest) = read_statement(alloc, source, depth, rest)?;
    Ok(((header, body), rest))
}

/// header = "=" WHOLE ";" v "<" WHOLE ";" v "++" ")", where a token that is not expected is refused
/// for a bad header: its two numbers.
fn read_header<'a>(
    source: Source,
    rest: &'a [Token],
) -> Result<((&'a Token, &'a Token), &'a [Token]), GrammarStop<'a, Word>>
    ensures { Gives (λ x. ((x.0.0.now, x.0.1.now), x.1.now)) result
        (read number_of class_of source.entry.scope.now (header source.entry.text.now) rest.now) }
{
    match read_plain_header(source, rest) {
        Ok(read) => Ok(read),
        Err(GrammarStop::Memory) => Err(GrammarStop::Memory),
        Err(GrammarStop::At(kind, at)) => Err(GrammarStop::At(
            hinted(Refusal::BadHeader, kind),
            at,
        )),
    }
}

#[tactic(auto, unfolding(crate::specs::Statements::header_body))]
fn read_plain_header<'a>(
    source: Source,
    rest: &'a [Token],
) -> Result<((&'a Token, &'a Token), &'a [Token]), GrammarStop<'a, Word>>
    ensures { Gives (λ x. ((x.0.0.now, x.0.1.now), x.1.now)) result
        (read number_of class_of source.entry.scope.now (plain_header source.entry.text.now) rest.now) }
{
    let (_, rest) = take(rest, Word::Assign)?;
    let (from, rest) = take(rest, Word::Whole)?;
    let (_, rest) = take(rest, Word::Semicolon)?;
    let (_, rest) = take_again(source.text, &[Word::Name], source.scope, rest)?;
    let (_, rest) = take(rest, Word::Less)?;
    let (to, rest) = take(rest, Word::Whole)?;
    let (_, rest) = take(rest, Word::Semicolon)?;
    let (_, rest) = take_again(source.text, &[Word::Name], source.scope, rest)?;
    let (_, rest) = take(rest, Word::Increment)?;
    let (_, rest) = take(rest, Word::CloseParen)?;
    Ok(((from, to), rest))
}

/// other = block | loop | list | simple
#[cycle(statements)]
#[tactic(auto, unfolding(crate::specs::Statements::other_body))]
fn read_other<'a>(
    alloc: Global,
    source: Source,
    depth: usize,
    rest: &'a [Token],
) -> Result<(Stmt, &'a [Token]), GrammarStop<'a, Word>>
    ensures { Gives (λ x. (statement_of x.0, x.1.now)) result
        (read number_of class_of source.entry.scope.now
        (other_with source.entry.text.now source.entry.limit depth
        (statement source.entry.text.now source.entry.limit depth)) rest.now) }
{
    if next_is(rest, Word::OpenBrace) {
        let (statements, rest) = read_block(alloc, source, depth, rest)?;
        return Ok((Stmt::Block(statements), rest));
    }
    if next_is(rest, Word::For) {
        return read_loop(alloc, source, depth, rest);
    }
    if next_is(rest, Word::Enum) {
        return read_list(alloc, source.limit, rest);
    }
    read_simple(alloc, source, depth, rest)
}

/// statement = choice | other
#[cycle(statements)]
fn read_statement<'a>(
    alloc: Global,
    source: Source,
    depth: usize,
    rest: &'a [Token],
) -> Result<(Stmt, &'a [Token]), GrammarStop<'a, Word>>
    ensures { Gives (λ x. (statement_of x.0, x.1.now)) result
        (read number_of class_of source.entry.scope.now
        (statement source.entry.text.now source.entry.limit depth) rest.now) }
{
    if depth == 0 {
        return read_flat(alloc, source, rest);
    }
    read_nested(alloc, source, depth - 1, rest)
}

#[cycle(statements)]
#[tactic(auto, unfolding(crate::specs::Statements::statement_body))]
fn read_nested<'a>(
    alloc: Global,
    source: Source,
    depth: usize,
    rest: &'a [Token],
) -> Result<(Stmt, &'a [Token]), GrammarStop<'a, Word>>
    ensures { Gives (λ x. (statement_of x.0, x.1.now)) result
        (read number_of class_of source.entry.scope.now
        (statement source.entry.text.now source.entry.limit (suc depth)) rest.now) }
{
    if next_is(rest, Word::If) {
        return read_choice(alloc, source, depth, rest);
    }
    read_other(alloc, source, depth, rest)
}

#[tactic(auto, unfolding(crate::specs::Statements::statement_body))]
fn read_flat<'a>(
    alloc: Global,
    source: Source,
    rest: &'a [Token],
) -> Result<(Stmt, &'a [Token]), GrammarStop<'a, Word>>
    ensures { Gives (λ x. (statement_of x.0, x.1.now)) result
        (read number_of class_of source.entry.scope.now
        (statement source.entry.text.now source.entry.limit 0) rest.now) }
{
    if next_is_one_of(rest, &[Word::OpenBrace, Word::If, Word::For]) {
        return Err(GrammarStop::At(Refusal::TooDeep, rest));
    }
    if next_is(rest, Word::Enum) {
        return read_list(alloc, source.limit, rest);
    }
    read_simple(alloc, source, 0, rest)
}
