//! Statements that hold no other: one function for each production, with its line of the grammar.

ghost use Rattle.std.specs.Prelude.{◌≡◌, ◌∷◌, [], IfOk, ℕ, suc, map, if◌then◌else◌};
ghost use Rattle.trick_body_statements.specs.Trees.{after_name_of, step_of};
ghost use Rattle.trick_body_symbols.specs.Statements as grammar;
ghost use Rattle.trick_body_symbols.specs.Statements.{bound_change, bound_steps, by_name, call, counted, counting_of, declaration, ended_operation, free_change, free_steps, local, named, named_of, operation, simple, value};
ghost use Rattle.trick_body_symbols.specs.Symbols.{number_of};
ghost use Rattle.trick_grammar.specs.Gives.{Gives, class_of, is_in_scope};
ghost use Rattle.trick_grammar.specs.Reading.{read};
ghost use Rattle.trick_lang.specs.Syntax.{change_of, expression_of, first_value_of, statement_of};

use crate::expressions::{read_expression, read_some_steps, read_steps};
use std::alloc::{AllocError, Global};
use trick_body_symbols::{
    ASSIGNMENTS, BASIC, COUNTING, NAMES, OPERATIONS, Source, Symbol, Token, name_beside,
    read_basic, take_hinted,
};
use trick_grammar::{
    GrammarStop, Refusal, is_in_scope, next_is, next_is_one_of, reason_at, take, take_one_of,
};
use trick_lang::syntax::{Change, Expr, Part, Path, Stmt, TypeName};
use trick_lang::{Arithmetic, Scalar};

/// What stands after the NAME that a statement begins with.
#[derive(Drop)]
pub enum AfterName {
    /// The name of a local and its first value: the first name is its type.
    Declares(Token, Option<Expr>),
    /// `();`
    Calls,
    /// The steps of a place, and its change.
    Changes(Vec<Part>, Change),
}

/// What an operator of assignment and its right side do.
fn change_of(mark: Symbol, value: Expr) -> Change
    ensures { change_of result ≡ grammar.change_of mark (expression_of value) }
{
    let operator = match mark {
        Symbol::PlusAssign => Arithmetic::Plus,
        Symbol::MinusAssign => Arithmetic::Minus,
        Symbol::TimesAssign => Arithmetic::Times,
        Symbol::DivideAssign => Arithmetic::Divide,
        Symbol::RemainderAssign => Arithmetic::Remainder,
        Symbol::AndAssign => Arithmetic::BitAnd,
        Symbol::OrAssign => Arithmetic::BitOr,
        Symbol::XorAssign => Arithmetic::BitXor,
        Symbol::ShiftLeftAssign => Arithmetic::ShiftLeft,
        Symbol::Assign => return Change::Set(value),
        _ => Arithmetic::ShiftRight,
    };
    Change::Update(operator, value)
}

/// `++` or `--`
fn counting_of(mark: Symbol) -> Change
    ensures { change_of result ≡ counting_of mark }
{
    match mark {
        Symbol::Increment => Change::Increase,
        _ => Change::Decrease,
    }
}

/// [ "=" expression ] ";"
#[tactic(auto, unfolding(trick_body_symbols::specs::Statements::value_body))]
fn read_value<'a>(
    alloc: Global,
    source: Source,
    depth: usize,
    rest: &'a [Token],
) -> Result<(Option<Expr>, &'a [Token]), GrammarStop<'a, Symbol>>
    ensures { Gives (λ x. (first_value_of x.0, x.1.now)) result
        (read number_of class_of [] (value source.entry.text.now source.entry.limit depth) rest.now) }
{
    if next_is(rest, Symbol::Assign) {
        let (_, rest) = take(rest, Symbol::Assign)?;
        let (value, rest) = read_expression(alloc, source, depth, rest)?;
        let (_, rest) = take(rest, Symbol::Semicolon)?;
        return Ok((Some(value), rest));
    }
    let (_, rest) = take(rest, Symbol::Semicolon)?;
    Ok((None, rest))
}

/// operation = op expression | "++" | "--"
#[tactic(auto, unfolding(trick_body_symbols::specs::Statements::operation_body))]
fn read_operation<'a>(
    alloc: Global,
    source: Source,
    depth: usize,
    rest: &'a [Token],
) -> Result<(Change, &'a [Token]), GrammarStop<'a, Symbol>>
    ensures { Gives (λ x. (change_of x.0, x.1.now)) result
        (read number_of class_of [] (operation source.entry.text.now source.entry.limit depth) rest.now) }
{
    if next_is_one_of(rest, &ASSIGNMENTS) {
        let (mark, rest) = take_one_of(rest, &ASSIGNMENTS)?;
        let (value, rest) = read_expression(alloc, source, depth, rest)?;
        return Ok((change_of(mark.class, value), rest));
    }
    let (mark, rest) = take_one_of(rest, &COUNTING)?;
    Ok((counting_of(mark.class), rest))
}

/// operation ";"
fn read_ended_operation<'a>(
    alloc: Global,
    source: Source,
    depth: usize,
    rest: &'a [Token],
) -> Result<((Change, &'a Token), &'a [Token]), GrammarStop<'a, Symbol>>
    ensures { Gives (λ x. ((change_of x.0.0, x.0.1.now), x.1.now)) result
        (read number_of class_of [] (ended_operation source.entry.text.now source.entry.limit depth) rest.now) }
{
    let (change, rest) = read_operation(alloc, source, depth, rest)?;
    let (end, rest) = take(rest, Symbol::Semicolon)?;
    Ok(((change, end), rest))
}

/// "(" ")" ";", which is a call
fn read_call<'a>(
    source: Source,
    depth: usize,
    rest: &'a [Token],
) -> Result<(AfterName, &'a [Token]), GrammarStop<'a, Symbol>>
    ensures { Gives (λ x. (after_name_of x.0, x.1.now)) result
        (read number_of class_of [] (call source.entry.text.now source.entry.limit depth) rest.now) }
{
    if depth == 0 {
        return read_no_call(source, rest);
    }
    read_marks(source, depth - 1, rest)
}

#[tactic(auto, unfolding(trick_body_symbols::specs::Statements::call_body))]
fn read_no_call<'a>(
    source: Source,
    rest: &'a [Token],
) -> Result<(AfterName, &'a [Token]), GrammarStop<'a, Symbol>>
    ensures { Gives (λ x. (after_name_of x.0, x.1.now)) result
        (read number_of class_of [] (call source.entry.text.now source.entry.limit 0) rest.now) }
{
    Err(GrammarStop::At(
        reason_at(rest, Refusal::TooDeep, &[Symbol::OpenParen]),
        rest,
    ))
}

#[tactic(auto, unfolding(trick_body_symbols::specs::Statements::call_body))]
fn read_marks<'a>(
    source: Source,
    depth: usize,
    rest: &'a [Token],
) -> Result<(AfterName, &'a [Token]), GrammarStop<'a, Symbol>>
    ensures { Gives (λ x. (after_name_of x.0, x.1.now)) result
        (read number_of class_of [] (call source.entry.text.now source.entry.limit (suc depth)) rest.now) }
{
    let (_, rest) = take(rest, Symbol::OpenParen)?;
    let (_, rest) = take(rest, Symbol::CloseParen)?;
    let (_, rest) = take(rest, Symbol::Semicolon)?;
    Ok((AfterName::Calls, rest))
}

/// { step } operation ";"
#[tactic(auto, unfolding(trick_body_symbols::specs::Statements::free_change_body))]
fn read_free_change<'a>(
    alloc: Global,
    source: Source,
    depth: usize,
    rest: &'a [Token],
) -> Result<(AfterName, &'a [Token]), GrammarStop<'a, Symbol>>
    ensures { Gives (λ x. (after_name_of x.0, x.1.now)) result
        (read number_of class_of [] (free_change source.entry.text.now source.entry.limit depth) rest.now) }
{
    let (parts, rest) = read_steps(alloc, source, depth, rest)?;
    let ((change, _), rest) = read_ended_operation(alloc, source, depth, rest)?;
    Ok((AfterName::Changes(parts, change), rest))
}

/// step { step } operation ";" after the name of a loop round it
#[tactic(auto, unfolding(trick_body_symbols::specs::Statements::bound_change_body))]
fn read_bound_change<'a>(
    alloc: Global,
    source: Source,
    depth: usize,
    rest: &'a [Token],
) -> Result<(AfterName, &'a [Token]), GrammarStop<'a, Symbol>>
    ensures { Gives (λ x. (after_name_of x.0, x.1.now)) result
        (read number_of class_of [] (bound_change source.entry.text.now source.entry.limit depth) rest.now) }
{
    if !next_is_one_of(rest, &[Symbol::Dot, Symbol::OpenBracket]) {
        return Err(GrammarStop::At(reason_at(rest, Refusal::BadLoop, &OPERATIONS), rest));
    }
    let (parts, rest) = read_some_steps(alloc, source, depth, rest)?;
    let ((change, _), rest) = read_ended_operation(alloc, source, depth, rest)?;
    Ok((AfterName::Changes(parts, change), rest))
}

/// A declaration, a call or a change, after the NAME that is no loop's.
#[tactic(auto, unfolding(trick_body_symbols::specs::Statements::named_body))]
fn read_free_named<'a>(
    alloc: Global,
    source: Source,
    depth: usize,
    rest: &'a [Token],
) -> Result<(AfterName, &'a [Token]), GrammarStop<'a, Symbol>>
    ensures { Gives (λ x. (after_name_of x.0, x.1.now)) result
        (read number_of class_of [] (named source.entry.text.now source.entry.limit depth
        (free_change source.entry.text.now source.entry.limit depth)) rest.now) }
{
    if next_is_one_of(rest, &NAMES) {
        return read_local(alloc, source, depth, rest);
    }
    if next_is(rest, Symbol::OpenParen) {
        return read_call(source, depth, rest);
    }
    read_free_change(alloc, source, depth, rest)
}

/// The same, after the name of a loop round it.
#[tactic(auto, unfolding(trick_body_symbols::specs::Statements::named_body))]
fn read_bound_named<'a>(
    alloc: Global,
    source: Source,
    depth: usize,
    rest: &'a [Token],
) -> Result<(AfterName, &'a [Token]), GrammarStop<'a, Symbol>>
    ensures { Gives (λ x. (after_name_of x.0, x.1.now)) result
        (read number_of class_of [] (named source.entry.text.now source.entry.limit depth
        (bound_change source.entry.text.now source.entry.limit depth)) rest.now) }
{
    if next_is_one_of(rest, &NAMES) {
        return read_local(alloc, source, depth, rest);
    }
    if next_is(rest, Symbol::OpenParen) {
        return read_call(source, depth, rest);
    }
    read_bound_change(alloc, source, depth, rest)
}

/// NAME [ "=" expression ] ";", after the name of a type
fn read_local<'a>(
    alloc: Global,
    source: Source,
    depth: usize,
    rest: &'a [Token],
) -> Result<(AfterName, &'a [Token]), GrammarStop<'a, Symbol>>
    ensures { Gives (λ x. (after_name_of x.0, x.1.now)) result
        (read number_of class_of [] (local source.entry.text.now source.entry.limit depth) rest.now) }
{
    let (name, rest) = take_one_of(rest, &NAMES)?;
    let (value, rest) = read_value(alloc, source, depth, rest)?;
    Ok((AfterName::Declares(*name, value), rest))
}

/// A declaration, a call or a change, after this NAME.
fn read_named<'a>(
    alloc: Global,
    source: Source,
    depth: usize,
    name: &Token,
    rest: &'a [Token],
) -> Result<(AfterName, &'a [Token]), GrammarStop<'a, Symbol>>
    ensures { Gives (λ x. (after_name_of x.0, x.1.now)) result
        (if is_in_scope source.entry.text.now source.entry.scope.now name.now
        then read number_of class_of [] (named source.entry.text.now source.entry.limit depth
        (bound_change source.entry.text.now source.entry.limit depth)) rest.now
        else read number_of class_of [] (named source.entry.text.now source.entry.limit depth
        (free_change source.entry.text.now source.entry.limit depth)) rest.now) }
{
    if is_in_scope(source.text, source.scope, name) {
        return read_bound_named(alloc, source, depth, rest);
    }
    read_free_named(alloc, source, depth, rest)
}

/// The statement of a NAME and what stands after it.
#[tactic(auto, using(crate::proofs::Lists::parts_are))]
fn named_of(alloc: Global, text: &[u8], first: &Token, after: AfterName) -> Result<Stmt, AllocError>
    ensures { IfOk result (λ s. statement_of s ≡ named_of text.now first.now (after_name_of after)) }
{
    let line = first.line;
    let (bytes, after) = name_beside(alloc, text, first, after)?;
    match after {
        AfterName::Declares(local, value) => {
            let (name, (bytes, value)) = name_beside(alloc, text, &local, (bytes, value))?;
            Ok(Stmt::Declare {
                line,
                written: TypeName::Custom { line, name: bytes },
                name,
                value,
            })
        }
        AfterName::Calls => Ok(Stmt::Call { line, name: bytes }),
        AfterName::Changes(parts, change) => Ok(Stmt::Assign {
            line,
            path: Path {
                line,
                name: bytes,
                parts,
            },
            change,
        }),
    }
}

/// NAME and what stands after it
#[tactic(auto, unfolding(trick_body_symbols::specs::Statements::by_name_body))]
fn read_by_name<'a>(
    alloc: Global,
    source: Source,
    depth: usize,
    rest: &'a [Token],
) -> Result<(Stmt, &'a [Token]), GrammarStop<'a, Symbol>>
    ensures { Gives (λ x. (statement_of x.0, x.1.now)) result
        (read number_of class_of source.entry.scope.now (by_name source.entry.text.now source.entry.limit depth)
        rest.now) }
{
    let (first, rest) = take_hinted(rest, &NAMES, Refusal::Expected)?;
    let (after, rest) = read_named(alloc, source, depth, first, rest)?;
    Ok((named_of(alloc, source.text, first, after)?, rest))
}

/// { step } ";"
#[tactic(auto, unfolding(trick_body_symbols::specs::Statements::free_steps_body))]
fn read_free_steps<'a>(
    alloc: Global,
    source: Source,
    depth: usize,
    rest: &'a [Token],
) -> Result<(Vec<Part>, &'a [Token]), GrammarStop<'a, Symbol>>
    ensures { Gives (λ x. (map step_of x.0.items, x.1.now)) result
        (read number_of class_of [] (free_steps source.entry.text.now source.entry.limit depth) rest.now) }
{
    let (parts, rest) = read_steps(alloc, source, depth, rest)?;
    let (_, rest) = take(rest, Symbol::Semicolon)?;
    Ok((parts, rest))
}

/// step { step } ";" after the name of a loop round it
#[tactic(auto, unfolding(trick_body_symbols::specs::Statements::bound_steps_body))]
fn read_bound_steps<'a>(
    alloc: Global,
    source: Source,
    depth: usize,
    rest: &'a [Token],
) -> Result<(Vec<Part>, &'a [Token]), GrammarStop<'a, Symbol>>
    ensures { Gives (λ x. (map step_of x.0.items, x.1.now)) result
        (read number_of class_of [] (bound_steps source.entry.text.now source.entry.limit depth) rest.now) }
{
    if !next_is_one_of(rest, &[Symbol::Dot, Symbol::OpenBracket]) {
        return Err(GrammarStop::At(
            reason_at(rest, Refusal::BadLoop, &[Symbol::Semicolon]),
            rest,
        ));
    }
    let (parts, rest) = read_some_steps(alloc, source, depth, rest)?;
    let (_, rest) = take(rest, Symbol::Semicolon)?;
    Ok((parts, rest))
}

/// { step } ";", after this NAME
fn read_counted_steps<'a>(
    alloc: Global,
    source: Source,
    depth: usize,
    name: &Token,
    rest: &'a [Token],
) -> Result<(Vec<Part>, &'a [Token]), GrammarStop<'a, Symbol>>
    ensures { Gives (λ x. (map step_of x.0.items, x.1.now)) result
        (if is_in_scope source.entry.text.now source.entry.scope.now name.now
        then read number_of class_of [] (bound_steps source.entry.text.now source.entry.limit depth) rest.now
        else read number_of class_of [] (free_steps source.entry.text.now source.entry.limit depth) rest.now) }
{
    if is_in_scope(source.text, source.scope, name) {
        return read_bound_steps(alloc, source, depth, rest);
    }
    read_free_steps(alloc, source, depth, rest)
}

/// The statement of `++` or `--` before the place of this name and these steps.
#[tactic(auto, using(crate::proofs::Lists::parts_are))]
fn counted_of(
    alloc: Global,
    text: &[u8],
    mark: &Token,
    name: &Token,
    parts: Vec<Part>,
) -> Result<Stmt, AllocError>
    ensures { IfOk result (λ s. statement_of s
        ≡ grammar.counted_of text.now mark.now name.now (map step_of parts.items)) }
{
    let (bytes, parts) = name_beside(alloc, text, name, parts)?;
    let path = Path {
        line: name.line,
        name: bytes,
        parts,
    };
    Ok(Stmt::Assign {
        line: mark.line,
        path,
        change: counting_of(mark.class),
    })
}

/// ( "++" | "--" ) place ";"
#[tactic(auto, unfolding(trick_body_symbols::specs::Statements::counted_body))]
fn read_counted<'a>(
    alloc: Global,
    source: Source,
    depth: usize,
    rest: &'a [Token],
) -> Result<(Stmt, &'a [Token]), GrammarStop<'a, Symbol>>
    ensures { Gives (λ x. (statement_of x.0, x.1.now)) result
        (read number_of class_of source.entry.scope.now (counted source.entry.text.now source.entry.limit depth)
        rest.now) }
{
    let (mark, rest) = take_one_of(rest, &COUNTING)?;
    let (name, rest) = take_hinted(rest, &NAMES, Refusal::Expected)?;
    let (parts, rest) = read_counted_steps(alloc, source, depth, name, rest)?;
    Ok((counted_of(alloc, source.text, mark, name, parts)?, rest))
}

/// The declaration of a local of a type of keywords, which is on this line.
fn declared_of(
    alloc: Global,
    text: &[u8],
    basic: (u32, Scalar),
    name: &Token,
    value: Option<Expr>,
) -> Result<Stmt, AllocError>
    ensures { IfOk result (λ s. statement_of s
        ≡ grammar.declared_of text.now basic name.now (first_value_of value)) }
{
    let (line, scalar) = basic;
    let (name, value) = name_beside(alloc, text, name, value)?;
    Ok(Stmt::Declare {
        line,
        written: TypeName::Basic(scalar),
        name,
        value,
    })
}

/// basic NAME [ "=" expression ] ";"
#[tactic(auto, unfolding(trick_body_symbols::specs::Statements::declaration_body))]
fn read_declaration<'a>(
    alloc: Global,
    source: Source,
    depth: usize,
    rest: &'a [Token],
) -> Result<(Stmt, &'a [Token]), GrammarStop<'a, Symbol>>
    ensures { Gives (λ x. (statement_of x.0, x.1.now)) result
        (read number_of class_of [] (declaration source.entry.text.now source.entry.limit depth) rest.now) }
{
    let (basic, rest) = read_basic(rest)?;
    let (name, rest) = take_one_of(rest, &NAMES)?;
    let (value, rest) = read_value(alloc, source, depth, rest)?;
    Ok((declared_of(alloc, source.text, basic, name, value)?, rest))
}

/// simple = NAME .. | basic NAME .. | "++" .. | "--" .. | ";"
#[tactic(auto, unfolding(trick_body_symbols::specs::Statements::simple_body))]
pub fn read_simple<'a>(
    alloc: Global,
    source: Source,
    depth: usize,
    rest: &'a [Token],
) -> Result<(Stmt, &'a [Token]), GrammarStop<'a, Symbol>>
    ensures { Gives (λ x. (statement_of x.0, x.1.now)) result
        (read number_of class_of source.entry.scope.now (simple source.entry.text.now source.entry.limit depth)
        rest.now) }
{
    if next_is_one_of(rest, &NAMES) {
        return read_by_name(alloc, source, depth, rest);
    }
    if next_is_one_of(rest, &BASIC) {
        return read_declaration(alloc, source, depth, rest);
    }
    if next_is_one_of(rest, &COUNTING) {
        return read_counted(alloc, source, depth, rest);
    }
    let (_, rest) = take(rest, Symbol::Semicolon)?;
    Ok((Stmt::Empty, rest))
}
