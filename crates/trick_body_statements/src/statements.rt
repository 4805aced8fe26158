//! Statements that hold others: one function for each production, with its line of the grammar.

ghost use Rattle.std.specs.Prelude.{◌≡◌, ◌∷◌, [], IfOk, ℕ, suc, map, option_map};
ghost use Rattle.trick_body_statements.specs.Trees.{branch_of, else_of};
ghost use Rattle.trick_body_symbols.specs.Heads.{Leads, looped, tested};
ghost use Rattle.trick_body_symbols.specs.Statements.{block, bound_of, branch, branches_of, choice_rest, chosen, else_link, header, loop_of, loop_step, loop_test, loop_with, nested, otherwise, plain_header, scoped_with, statement, test, turns_with, unblocked, unbranched};
ghost use Rattle.trick_body_symbols.specs.Symbols.{number_of};
ghost use Rattle.trick_grammar.specs.Gives.{Gives, class_of};
ghost use Rattle.trick_grammar.specs.Grammar.{act, nearest, repetition};
ghost use Rattle.trick_grammar.specs.Reading.{read};
ghost use Rattle.trick_lang.specs.Syntax.{expression_of, statement_of};
ghost use Rattle.trick_lang.specs.SyntaxTree;

use crate::expressions::read_expression;
use crate::simple::read_simple;
use std::alloc::{AllocError, Global};
use trick_body_symbols::{
    BOUNDS, Level, NAMES, STATEMENTS, Source, Symbol, Token, WHOLES, name_beside, take_hinted,
    within,
};
use trick_grammar::{
    GrammarStop, Refusal, hinted, next_is, next_is_one_of, reason_at, take, take_again, take_one_of,
};
use trick_lang::syntax::{Branch, Expr, Stmt};
use trick_lang::{BOUND_LIMIT, Bound};

/// What stands after an `else`: another test, or the last statement.
#[derive(Drop)]
pub enum Else {
    Onward(Branch),
    Last(Stmt),
}

/// statement = block | "if" .. | "for" .. | simple
#[cycle(statements)]
#[tactic(auto, unfolding(trick_body_symbols::specs::Statements::statement_body))]
fn read_statement<'a>(
    alloc: Global,
    source: Source,
    depth: usize,
    rest: &'a [Token],
) -> Result<(Stmt, &'a [Token]), GrammarStop<'a, Symbol>>
    ensures { Gives (λ x. (statement_of x.0, x.1.now)) result
        (read number_of class_of source.entry.scope.now (statement source.entry.text.now source.entry.limit depth)
        rest.now) }
{
    if next_is(rest, Symbol::OpenBrace) {
        return read_level(alloc, source, depth, Level::Block, rest);
    }
    if next_is(rest, Symbol::If) {
        return read_level(alloc, source, depth, Level::If, rest);
    }
    if next_is(rest, Symbol::For) {
        return read_level(alloc, source, depth, Level::For, rest);
    }
    read_simple(alloc, source, depth, rest)
}

/// A statement that is no block.
#[cycle(statements)]
#[tactic(auto, unfolding(trick_body_symbols::specs::Statements::unblocked_body))]
fn read_unblocked<'a>(
    alloc: Global,
    source: Source,
    depth: usize,
    rest: &'a [Token],
) -> Result<(Stmt, &'a [Token]), GrammarStop<'a, Symbol>>
    ensures { Gives (λ x. (statement_of x.0, x.1.now)) result
        (read number_of class_of source.entry.scope.now (unblocked source.entry.text.now source.entry.limit depth)
        rest.now) }
{
    if next_is(rest, Symbol::If) {
        return read_level(alloc, source, depth, Level::If, rest);
    }
    if next_is(rest, Symbol::For) {
        return read_level(alloc, source, depth, Level::For, rest);
    }
    read_simple(alloc, source, depth, rest)
}

/// A statement that is neither a block nor an `if`.
#[cycle(statements)]
#[tactic(auto, unfolding(trick_body_symbols::specs::Statements::unbranched_body))]
fn read_unbranched<'a>(
    alloc: Global,
    source: Source,
    depth: usize,
    rest: &'a [Token],
) -> Result<(Stmt, &'a [Token]), GrammarStop<'a, Symbol>>
    ensures { Gives (λ x. (statement_of x.0, x.1.now)) result
        (read number_of class_of source.entry.scope.now (unbranched source.entry.text.now source.entry.limit depth)
        rest.now) }
{
    if next_is(rest, Symbol::For) {
        return read_level(alloc, source, depth, Level::For, rest);
    }
    read_simple(alloc, source, depth, rest)
}

/// What counts as a level: with no level left it is refused.
#[cycle(statements)]
fn read_level<'a>(
    alloc: Global,
    source: Source,
    depth: usize,
    kind: Level,
    rest: &'a [Token],
) -> Result<(Stmt, &'a [Token]), GrammarStop<'a, Symbol>>
    ensures { Gives (λ x. (statement_of x.0, x.1.now)) result
        (read number_of class_of source.entry.scope.now (nested source.entry.text.now source.entry.limit kind depth)
        rest.now) }
{
    if depth == 0 {
        return read_too_deep(source, kind, rest);
    }
    read_inside(alloc, source, depth - 1, kind, rest)
}

#[tactic(auto, unfolding(trick_body_symbols::specs::Statements::nested_body))]
fn read_too_deep<'a>(
    source: Source,
    kind: Level,
    rest: &'a [Token],
) -> Result<(Stmt, &'a [Token]), GrammarStop<'a, Symbol>>
    ensures { Gives (λ x. (statement_of x.0, x.1.now)) result
        (read number_of class_of source.entry.scope.now (nested source.entry.text.now source.entry.limit kind 0)
        rest.now) }
{
    Err(GrammarStop::At(reason_at(rest, Refusal::TooDeep, kind.first()), rest))
}

/// What counts as a level, with one level more than stands inside.
#[cycle(statements)]
#[tactic(auto, unfolding(trick_body_symbols::specs::Statements::nested_body))]
fn read_inside<'a>(
    alloc: Global,
    source: Source,
    depth: usize,
    kind: Level,
    rest: &'a [Token],
) -> Result<(Stmt, &'a [Token]), GrammarStop<'a, Symbol>>
    ensures { Gives (λ x. (statement_of x.0, x.1.now)) result
        (read number_of class_of source.entry.scope.now (nested source.entry.text.now source.entry.limit kind
        (suc depth)) rest.now) }
{
    match kind {
        Level::Block => read_block(alloc, source, depth, rest),
        Level::If => read_choice(alloc, source, depth, rest),
        Level::For => read_loop(alloc, source, depth, rest),
    }
}

/// block = "{" { statement } "}"
#[cycle(statements)]
#[tactic(auto, using(crate::proofs::Lists::block_made), unfolding(trick_body_symbols::specs::Statements::block_body))]
fn read_block<'a>(
    alloc: Global,
    source: Source,
    depth: usize,
    rest: &'a [Token],
) -> Result<(Stmt, &'a [Token]), GrammarStop<'a, Symbol>>
    ensures { Gives (λ x. (statement_of x.0, x.1.now)) result
        (read number_of class_of source.entry.scope.now (block source.entry.text.now source.entry.limit depth)
        rest.now) }
{
    let (_, rest) = take(rest, Symbol::OpenBrace)?;
    let (statements, rest) = read_statements(alloc, source, depth, rest)?;
    let (_, rest) = take(rest, Symbol::CloseBrace)?;
    Ok((Stmt::Block(statements), rest))
}

/// { statement }
#[cycle(statements)]
pub fn read_statements<'a>(
    alloc: Global,
    source: Source,
    depth: usize,
    rest: &'a [Token],
) -> Result<(Vec<Stmt>, &'a [Token]), GrammarStop<'a, Symbol>>
    ensures { Gives (λ x. (map statement_of x.0.items, x.1.now)) result
        (read number_of class_of source.entry.scope.now
        (repetition source.entry.limit (statement source.entry.text.now source.entry.limit depth)) rest.now) }
{
    let mut found = Vec::new(alloc);
    let mut left = source.limit;
    let mut rest = rest;
    while next_is_one_of(rest, &STATEMENTS) {
        if left == 0 {
            return Err(GrammarStop::At(Refusal::TooLong, rest));
        }
        let (statement, after) = read_statement(alloc, source, depth, rest)?;
        found.push(statement)?;
        rest = after;
        left -= 1;
    }
    Ok((found, rest))
}

/// choice = test { "else" test } [ "else" statement ]
#[cycle(statements)]
#[tactic(auto, unfolding(trick_body_symbols::specs::Statements::choice_body))]
fn read_choice<'a>(
    alloc: Global,
    source: Source,
    depth: usize,
    rest: &'a [Token],
) -> Result<(Stmt, &'a [Token]), GrammarStop<'a, Symbol>>
    ensures { Gives (λ x. (statement_of x.0, x.1.now)) result
        (read number_of class_of source.entry.scope.now (chosen source.entry.text.now source.entry.limit depth)
        rest.now) }
{
    let (first, rest) = read_test(alloc, source, depth, rest)?;
    let found = one_branch(alloc, first)?;
    let ((branches, last), rest) = read_elses(alloc, source, depth, found, rest)?;
    Ok((choice_of(alloc, branches, last)?, rest))
}

/// A list of one branch.
fn one_branch(alloc: Global, first: Branch) -> Result<Vec<Branch>, AllocError>
    ensures { IfOk result (λ found. found.items ≡ first ∷ []) }
{
    let mut found = Vec::new(alloc);
    found.push(first)?;
    Ok(found)
}

/// The statement of some branches and what stands after the last `else`.
fn choice_of(alloc: Global, branches: Vec<Branch>, last: Option<Stmt>) -> Result<Stmt, AllocError>
    ensures { IfOk result (λ s. statement_of s ≡ SyntaxTree.If
        (branches_of (map branch_of branches.items) (option_map statement_of last))) }
{
    match last {
        None => Ok(Stmt::If {
            branches,
            otherwise: None,
        }),
        Some(statement) => {
            let otherwise = Box::new(alloc, statement)?;
            Ok(Stmt::If {
                branches,
                otherwise: Some(otherwise),
            })
        }
    }
}

/// { "else" test } [ "else" statement ], after the tests that were found
#[cycle(statements)]
fn read_elses<'a>(
    alloc: Global,
    source: Source,
    depth: usize,
    found: Vec<Branch>,
    rest: &'a [Token],
) -> Result<((Vec<Branch>, Option<Stmt>), &'a [Token]), GrammarStop<'a, Symbol>>
    ensures { Gives (λ x. ((map branch_of x.0.0.items, option_map statement_of x.0.1), x.1.now)) result
        (read number_of class_of source.entry.scope.now (choice_rest source.entry.text.now source.entry.limit depth
        (map branch_of found.items)) rest.now) }
{
    let mut found = found;
    let mut rest = rest;
    while next_is(rest, Symbol::Else) {
        let (link, after) = read_else(alloc, source, depth, rest)?;
        rest = after;
        match link {
            Else::Onward(branch) => found.push(branch)?,
            Else::Last(last) => return Ok(((found, Some(last)), rest)),
        }
    }
    Ok(((found, None), rest))
}

/// "else" ( test | statement ), where the statement is no `if`
#[cycle(statements)]
#[tactic(auto, unfolding(trick_body_symbols::specs::Statements::else_body))]
fn read_else<'a>(
    alloc: Global,
    source: Source,
    depth: usize,
    rest: &'a [Token],
) -> Result<(Else, &'a [Token]), GrammarStop<'a, Symbol>>
    ensures { Gives (λ x. (else_of x.0, x.1.now)) result
        (read number_of class_of source.entry.scope.now (else_link source.entry.text.now source.entry.limit depth)
        rest.now) }
{
    let (_, rest) = take(rest, Symbol::Else)?;
    if next_is(rest, Symbol::If) {
        let (branch, rest) = read_test(alloc, source, depth, rest)?;
        return Ok((Else::Onward(branch), rest));
    }
    let (last, rest) = read_otherwise(alloc, source, depth, rest)?;
    Ok((Else::Last(last), rest))
}

/// test = "if" "(" expression ")" statement
#[cycle(statements)]
fn read_test<'a>(
    alloc: Global,
    source: Source,
    depth: usize,
    rest: &'a [Token],
) -> Result<(Branch, &'a [Token]), GrammarStop<'a, Symbol>>
    ensures { Gives (λ x. (branch_of x.0, x.1.now)) result
        (read number_of class_of source.entry.scope.now (test source.entry.text.now source.entry.limit depth)
        rest.now) }
{
    let ((line, test), rest) = read_test_head(alloc, source, depth, rest)?;
    let (body, rest) = read_branch(alloc, source, depth, rest)?;
    Ok((Branch { line, test, body }, rest))
}

/// "if" "(" expression ")"
#[tactic(auto, unfolding(trick_body_symbols::specs::Statements::test_body))]
fn read_test_head<'a>(
    alloc: Global,
    source: Source,
    depth: usize,
    rest: &'a [Token],
) -> Result<((u32, Expr), &'a [Token]), GrammarStop<'a, Symbol>>
    ensures { Leads (λ x. tested x.0.0 (expression_of x.0.1)
        (read number_of class_of source.entry.scope.now (branch source.entry.text.now source.entry.limit depth)
        x.1.now)) result
        (read number_of class_of source.entry.scope.now (test source.entry.text.now source.entry.limit depth)
        rest.now) }
{
    let (word, rest) = take(rest, Symbol::If)?;
    let (_, rest) = take(rest, Symbol::OpenParen)?;
    let (test, rest) = read_expression(alloc, source, depth, rest)?;
    let (_, rest) = take(rest, Symbol::CloseParen)?;
    Ok(((word.line, test), rest))
}

/// The statement of an `if` or a `for`.
#[cycle(statements)]
#[tactic(auto, unfolding(trick_body_symbols::specs::Statements::branch_body))]
fn read_branch<'a>(
    alloc: Global,
    source: Source,
    depth: usize,
    rest: &'a [Token],
) -> Result<(Stmt, &'a [Token]), GrammarStop<'a, Symbol>>
    ensures { Gives (λ x. (statement_of x.0, x.1.now)) result
        (read number_of class_of source.entry.scope.now (branch source.entry.text.now source.entry.limit depth)
        rest.now) }
{
    if next_is(rest, Symbol::OpenBrace) {
        return read_block(alloc, source, depth, rest);
    }
    read_unblocked(alloc, source, depth, rest)
}

/// The statement of the last `else`.
#[cycle(statements)]
#[tactic(auto, unfolding(trick_body_symbols::specs::Statements::branch_body))]
fn read_otherwise<'a>(
    alloc: Global,
    source: Source,
    depth: usize,
    rest: &'a [Token],
) -> Result<(Stmt, &'a [Token]), GrammarStop<'a, Symbol>>
    ensures { Gives (λ x. (statement_of x.0, x.1.now)) result
        (read number_of class_of source.entry.scope.now (otherwise source.entry.text.now source.entry.limit depth)
        rest.now) }
{
    if next_is(rest, Symbol::OpenBrace) {
        return read_block(alloc, source, depth, rest);
    }
    read_unbranched(alloc, source, depth, rest)
}

/// loop = "for" "(" ( "int" | "long" ) v header statement, with v in scope
#[cycle(statements)]
fn read_loop<'a>(
    alloc: Global,
    source: Source,
    depth: usize,
    rest: &'a [Token],
) -> Result<(Stmt, &'a [Token]), GrammarStop<'a, Symbol>>
    ensures { Gives (λ x. (statement_of x.0, x.1.now)) result
        (read number_of class_of source.entry.scope.now (loop_with source.entry.text.now source.entry.limit
        (branch source.entry.text.now source.entry.limit depth)) rest.now) }
{
    let rest = read_loop_head(source, depth, rest)?;
    let ((name, header, body), rest) = read_scoped(alloc, source, depth, rest)?;
    Ok((loop_of(alloc, source.text, name, header, body)?, rest))
}

/// "for" "(" ( "int" | "long" )
#[tactic(auto, unfolding(trick_body_symbols::specs::Statements::loop_body))]
fn read_loop_head<'a>(
    source: Source,
    depth: usize,
    rest: &'a [Token],
) -> Result<&'a [Token], GrammarStop<'a, Symbol>>
    ensures { Leads (λ after. looped source.entry.text.now
        (read number_of class_of source.entry.scope.now (scoped_with source.entry.text.now source.entry.limit
        (branch source.entry.text.now source.entry.limit depth)) after.now)) result
        (read number_of class_of source.entry.scope.now (loop_with source.entry.text.now source.entry.limit
        (branch source.entry.text.now source.entry.limit depth)) rest.now) }
{
    let (_, rest) = take(rest, Symbol::For)?;
    let (_, rest) = take_hinted(rest, &[Symbol::OpenParen], Refusal::BadHeader)?;
    let (_, rest) = take_hinted(rest, &[Symbol::Int, Symbol::Long], Refusal::BadHeader)?;
    Ok(rest)
}

/// The statement of a loop: of its name, of its first number and its bound, and of what it repeats.
fn loop_of(
    alloc: Global,
    text: &[u8],
    name: &Token,
    header: (u64, Bound),
    body: Stmt,
) -> Result<Stmt, AllocError>
    ensures { IfOk result (λ s. statement_of s ≡ loop_of text.now name.now header (statement_of body)) }
{
    let (from, bound) = header;
    let body = Box::new(alloc, body)?;
    let (name, body) = name_beside(alloc, text, name, body)?;
    Ok(Stmt::For {
        name,
        from,
        bound,
        body,
    })
}

/// v header statement, with v in scope
#[cycle(statements)]
fn read_scoped<'a>(
    alloc: Global,
    source: Source,
    depth: usize,
    rest: &'a [Token],
) -> Result<((&'a Token, (u64, Bound), Stmt), &'a [Token]), GrammarStop<'a, Symbol>>
    ensures { Gives (λ x. ((x.0.0.now, (x.0.1, statement_of x.0.2)), x.1.now)) result
        (read number_of class_of source.entry.scope.now (scoped_with source.entry.text.now source.entry.limit
        (branch source.entry.text.now source.entry.limit depth)) rest.now) }
{
    let (name, rest) = take_hinted(rest, &NAMES, Refusal::BadHeader)?;
    let scope = within(alloc, name, source.scope)?;
    let inner = Source {
        text: source.text,
        limit: source.limit,
        scope: scope.as_slice(),
    };
    let ((header, body), rest) = read_turns(alloc, inner, depth, rest)?;
    Ok(((name, header, body), rest))
}

/// header statement, in the scope of v
#[cycle(statements)]
fn read_turns<'a>(
    alloc: Global,
    source: Source,
    depth: usize,
    rest: &'a [Token],
) -> Result<(((u64, Bound), Stmt), &'a [Token]), GrammarStop<'a, Symbol>>
    ensures { Gives (λ x. ((x.0.0, statement_of x.0.1), x.1.now)) result
        (read number_of class_of source.entry.scope.now (turns_with source.entry.text.now source.entry.limit
        (branch source.entry.text.now source.entry.limit depth)) rest.now) }
{
    let (header, rest) = read_header(source, rest)?;
    let (body, rest) = read_branch(alloc, source, depth, rest)?;
    Ok(((header, body), rest))
}

/// header = "=" WHOLE ";" v ( "<" | "<=" ) WHOLE ";" step ")", where a token that is not expected is
/// refused for a bad header.
fn read_header<'a>(
    source: Source,
    rest: &'a [Token],
) -> Result<((u64, Bound), &'a [Token]), GrammarStop<'a, Symbol>>
    ensures { Gives (λ x. (x.0, x.1.now)) result
        (read number_of class_of source.entry.scope.now (header source.entry.text.now) rest.now) }
{
    match read_plain_header(source, rest) {
        Ok(read) => Ok(read),
        Err(GrammarStop::Memory) => Err(GrammarStop::Memory),
        Err(GrammarStop::At(kind, at)) => Err(GrammarStop::At(
            hinted(Refusal::BadHeader, kind),
            at,
        )),
    }
}

#[tactic(auto, unfolding(trick_body_symbols::specs::Statements::header_body))]
fn read_plain_header<'a>(
    source: Source,
    rest: &'a [Token],
) -> Result<((u64, Bound), &'a [Token]), GrammarStop<'a, Symbol>>
    ensures { Gives (λ x. (x.0, x.1.now)) result
        (read number_of class_of source.entry.scope.now
        (plain_header source.entry.text.now) rest.now) }
{
    let (_, rest) = take(rest, Symbol::Assign)?;
    let (from, rest) = take_one_of(rest, &WHOLES)?;
    let (_, rest) = take(rest, Symbol::Semicolon)?;
    let (bound, rest) = read_loop_test(source, rest)?;
    let (_, rest) = take(rest, Symbol::Semicolon)?;
    let (_, rest) = read_loop_step(source, rest)?;
    let (_, rest) = take(rest, Symbol::CloseParen)?;
    Ok(((from.number, bound), rest))
}

/// v ( "<" | "<=" ) WHOLE
#[tactic(auto, unfolding(trick_body_symbols::specs::Statements::loop_test_body))]
fn read_loop_test<'a>(
    source: Source,
    rest: &'a [Token],
) -> Result<(Bound, &'a [Token]), GrammarStop<'a, Symbol>>
    ensures { Gives (λ x. (x.0, x.1.now)) result
        (read number_of class_of source.entry.scope.now (loop_test source.entry.text.now) rest.now) }
{
    let (_, rest) = take_again(source.text, &NAMES, source.scope, rest)?;
    let (mark, rest) = take_one_of(rest, &[Symbol::Less, Symbol::AtMost])?;
    let (to, rest) = take_one_of(rest, &BOUNDS)?;
    Ok((bound_of(mark.class, to.number), rest))
}

fn bound_of(mark: Symbol, number: u64) -> Bound
    ensures { result ≡ bound_of mark number }
{
    let last = number.min(BOUND_LIMIT) as u32;
    match mark {
        Symbol::Less => Bound::Below(last),
        _ => Bound::UpTo(last),
    }
}

/// step = v "++" | "++" v | v "+=" "1"
#[tactic(auto, unfolding(trick_body_symbols::specs::Statements::loop_step_body))]
fn read_loop_step<'a>(
    source: Source,
    rest: &'a [Token],
) -> Result<(&'a Token, &'a [Token]), GrammarStop<'a, Symbol>>
    ensures { Gives (λ x. (x.0.now, x.1.now)) result
        (read number_of class_of source.entry.scope.now (loop_step source.entry.text.now) rest.now) }
{
    if !next_is_one_of(rest, &NAMES) {
        let (_, rest) = take(rest, Symbol::Increment)?;
        return take_again(source.text, &NAMES, source.scope, rest);
    }
    let (name, rest) = take_again(source.text, &NAMES, source.scope, rest)?;
    if next_is(rest, Symbol::Increment) {
        let (_, rest) = take(rest, Symbol::Increment)?;
        return Ok((name, rest));
    }
    let (_, rest) = take(rest, Symbol::PlusAssign)?;
    let (_, rest) = take(rest, Symbol::One)?;
    Ok((name, rest))
}
