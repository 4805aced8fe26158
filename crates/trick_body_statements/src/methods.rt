//! Methods: one function for each production, with its line of the grammar. `depth` is how many levels
//! may nest in the braces of the method.

ghost use Rattle.std.specs.Prelude.{◌≡◌, [], IfOk, map};
ghost use Rattle.trick_body_symbols.specs.Methods.{int_inside, int_method, int_rest, last_line, method, return_line, void_inside, void_method, void_rest};
ghost use Rattle.trick_body_symbols.specs.Symbols.{number_of};
ghost use Rattle.trick_grammar.specs.Gives.{Gives, class_of, text_of};
ghost use Rattle.trick_grammar.specs.Reading.{read};
ghost use Rattle.trick_lang.specs.Syntax.{method_of, statements_of_list};

use crate::statements::read_statements;
use std::alloc::{AllocError, Global};
use trick_base::Items;
use trick_body_symbols::{NAMES, Source, Symbol, Token, name_beside};
use trick_grammar::{GrammarStop, next_is, take, take_one_of};
use trick_lang::syntax::{Method, Stmt};

/// return = "return" ( "0" | "(" "0" ")" ) ";"
#[tactic(auto, unfolding(trick_body_symbols::specs::Methods::return_body))]
fn read_return<'a>(rest: &'a [Token]) -> Result<(&'a Token, &'a [Token]), GrammarStop<'a, Symbol>>
    ensures { Gives (λ x. (x.0.now, x.1.now)) result
        (read number_of class_of [] return_line rest.now) }
{
    let (word, rest) = take(rest, Symbol::Return)?;
    if next_is(rest, Symbol::Zero) {
        let (_, rest) = take(rest, Symbol::Zero)?;
        let (_, rest) = take(rest, Symbol::Semicolon)?;
        return Ok((word, rest));
    }
    let (_, rest) = take(rest, Symbol::OpenParen)?;
    let (_, rest) = take(rest, Symbol::Zero)?;
    let (_, rest) = take(rest, Symbol::CloseParen)?;
    let (_, rest) = take(rest, Symbol::Semicolon)?;
    Ok((word, rest))
}

/// return "}"
fn read_last_line<'a>(
    rest: &'a [Token],
) -> Result<((&'a Token, &'a Token), &'a [Token]), GrammarStop<'a, Symbol>>
    ensures { Gives (λ x. ((x.0.0.now, x.0.1.now), x.1.now)) result
        (read number_of class_of [] last_line rest.now) }
{
    let (word, rest) = read_return(rest)?;
    let (brace, rest) = take(rest, Symbol::CloseBrace)?;
    Ok(((word, brace), rest))
}

/// ")" block, which is after "void" NAME "("
#[tactic(auto, using(crate::proofs::Lists::trees_are), unfolding(trick_body_symbols::specs::Methods::void_inside_body))]
pub fn read_void_inside<'a>(
    alloc: Global,
    source: Source,
    depth: usize,
    rest: &'a [Token],
) -> Result<(Items<Stmt>, &'a [Token]), GrammarStop<'a, Symbol>>
    ensures { Gives (λ x. (statements_of_list x.0, x.1.now)) result
        (read number_of class_of [] (void_inside source.entry.text.now source.entry.limit depth) rest.now) }
{
    let (_, rest) = take(rest, Symbol::CloseParen)?;
    let (_, rest) = take(rest, Symbol::OpenBrace)?;
    let (statements, rest) = read_statements(alloc, source.outside(), depth, rest)?;
    let (_, rest) = take(rest, Symbol::CloseBrace)?;
    Ok((Items::from_vec(statements), rest))
}

/// ")" "{" { stmt } return "}", which is after "int" NAME "("
#[tactic(auto, using(crate::proofs::Lists::trees_are), unfolding(trick_body_symbols::specs::Methods::int_inside_body))]
pub fn read_int_inside<'a>(
    alloc: Global,
    source: Source,
    depth: usize,
    rest: &'a [Token],
) -> Result<(Items<Stmt>, &'a [Token]), GrammarStop<'a, Symbol>>
    ensures { Gives (λ x. (statements_of_list x.0, x.1.now)) result
        (read number_of class_of [] (int_inside source.entry.text.now source.entry.limit depth) rest.now) }
{
    let (_, rest) = take(rest, Symbol::CloseParen)?;
    let (_, rest) = take(rest, Symbol::OpenBrace)?;
    let (statements, rest) = read_statements(alloc, source.outside(), depth, rest)?;
    let (_, rest) = read_last_line(rest)?;
    Ok((Items::from_vec(statements), rest))
}

/// "(" ")" block, which is after "void" NAME
#[tactic(auto, unfolding(trick_body_symbols::specs::Methods::void_body))]
pub fn read_void_rest<'a>(
    alloc: Global,
    source: Source,
    depth: usize,
    rest: &'a [Token],
) -> Result<(Items<Stmt>, &'a [Token]), GrammarStop<'a, Symbol>>
    ensures { Gives (λ x. (statements_of_list x.0, x.1.now)) result
        (read number_of class_of [] (void_rest source.entry.text.now source.entry.limit depth) rest.now) }
{
    let (_, rest) = take(rest, Symbol::OpenParen)?;
    read_void_inside(alloc, source, depth, rest)
}

/// "(" ")" "{" { stmt } return "}", which is after "int" NAME
#[tactic(auto, unfolding(trick_body_symbols::specs::Methods::int_body))]
pub fn read_int_rest<'a>(
    alloc: Global,
    source: Source,
    depth: usize,
    rest: &'a [Token],
) -> Result<(Items<Stmt>, &'a [Token]), GrammarStop<'a, Symbol>>
    ensures { Gives (λ x. (statements_of_list x.0, x.1.now)) result
        (read number_of class_of [] (int_rest source.entry.text.now source.entry.limit depth) rest.now) }
{
    let (_, rest) = take(rest, Symbol::OpenParen)?;
    read_int_inside(alloc, source, depth, rest)
}

/// The method of this name with these statements.
fn method_from(
    alloc: Global,
    text: &[u8],
    name: &Token,
    body: Items<Stmt>,
) -> Result<Method, AllocError>
    ensures { IfOk result (λ m. method_of m
        ≡ record { name = text_of text.now name.now; body = statements_of_list body }) }
{
    let (name, body) = name_beside(alloc, text, name, body)?;
    Ok(Method { name, body })
}

/// method = "void" NAME "(" ")" block | "int" NAME "(" ")" "{" { stmt } return "}"
#[tactic(auto, unfolding(trick_body_symbols::specs::Methods::method_body))]
pub fn read_method<'a>(
    alloc: Global,
    source: Source,
    depth: usize,
    rest: &'a [Token],
) -> Result<(Method, &'a [Token]), GrammarStop<'a, Symbol>>
    ensures { Gives (λ x. (method_of x.0, x.1.now)) result
        (read number_of class_of [] (method source.entry.text.now source.entry.limit depth) rest.now) }
{
    if next_is(rest, Symbol::Void) {
        return read_void_method(alloc, source, depth, rest);
    }
    read_int_method(alloc, source, depth, rest)
}

/// "void" NAME "(" ")" block
fn read_void_method<'a>(
    alloc: Global,
    source: Source,
    depth: usize,
    rest: &'a [Token],
) -> Result<(Method, &'a [Token]), GrammarStop<'a, Symbol>>
    ensures { Gives (λ x. (method_of x.0, x.1.now)) result
        (read number_of class_of [] (void_method source.entry.text.now source.entry.limit depth) rest.now) }
{
    let (_, rest) = take(rest, Symbol::Void)?;
    let (name, rest) = take_one_of(rest, &NAMES)?;
    let (body, rest) = read_void_rest(alloc, source, depth, rest)?;
    Ok((method_from(alloc, source.text, name, body)?, rest))
}

/// "int" NAME "(" ")" "{" { stmt } return "}"
fn read_int_method<'a>(
    alloc: Global,
    source: Source,
    depth: usize,
    rest: &'a [Token],
) -> Result<(Method, &'a [Token]), GrammarStop<'a, Symbol>>
    ensures { Gives (λ x. (method_of x.0, x.1.now)) result
        (read number_of class_of [] (int_method source.entry.text.now source.entry.limit depth) rest.now) }
{
    let (_, rest) = take(rest, Symbol::Int)?;
    let (name, rest) = take_one_of(rest, &NAMES)?;
    let (body, rest) = read_int_rest(alloc, source, depth, rest)?;
    Ok((method_from(alloc, source.text, name, body)?, rest))
}
