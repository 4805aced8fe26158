//! Classes: one function for each production, with its line of the grammar. `depth` is how many levels
//! may nest in the braces of a method.

ghost use Rattle.std.specs.Prelude.{◌≡◌, [], IfOk, map, Some};
ghost use Rattle.trick_body_symbols.specs.Symbols.{number_of};
ghost use Rattle.trick_grammar.specs.Gives.{Gives, class_of, text_of};
ghost use Rattle.trick_grammar.specs.Reading.{read};
ghost use Rattle.trick_body_symbols.specs.Statements.{scalar_of, unsigned_of};
ghost use Rattle.trick_grammar.specs.Grammar.{act, repetition};
ghost use Rattle.trick_lang.specs.Syntax.{class_part_of, definition_of, statements_of_list};
ghost use Rattle.trick_lang.specs.SyntaxTree;
ghost use Rattle.trick_sdef_classes.specs.Files.{after_int, after_name, basic_part, class, class_head, constructor_rest, int_member, int_part, int_part_of, named_part, named_part_of, other_type, part, trick_method, void_method};
ghost use Rattle.trick_sdef_jobs.specs.Trees.{job_line_of};

use crate::members::{read_declarators, read_lengths, read_more_declarators, take_closing};
use crate::names::{FREE_NAMES, take_free_name};
use std::alloc::{AllocError, Global};
use trick_base::Items;
use trick_body_statements::{read_int_inside, read_int_rest, read_void_rest};
use trick_body_symbols::{
    NAMES, Source, Symbol, Token, UNSIGNED, name_of, scalar_of, take_hinted, unsigned_of,
};
use trick_grammar::{GrammarStop, Refusal, next_is, next_is_one_of, reason_at, take, take_one_of};
use trick_lang::Scalar;
use trick_lang::syntax::{
    ClassPart, Declarator, Definition, JobLine, Members, Method, Stmt, TypeName,
};
use trick_sdef_jobs::read_jobs;

// The types of members that are one keyword other than `int`.
const OTHER_SCALARS: [Symbol; 4] = [Symbol::Bool, Symbol::Char, Symbol::Short, Symbol::Long];

// What the type of a member by keywords other than `int` begins with.
const OTHER_BASIC: [Symbol; 5] = [
    Symbol::Bool,
    Symbol::Char,
    Symbol::Short,
    Symbol::Long,
    Symbol::Unsigned,
];

// What a part of a class begins with.
const PART_BEGINNINGS: [Symbol; 16] = [
    Symbol::Public,
    Symbol::Void,
    Symbol::Int,
    Symbol::Bool,
    Symbol::Char,
    Symbol::Short,
    Symbol::Long,
    Symbol::Unsigned,
    Symbol::Name,
    Symbol::UpperTrick,
    Symbol::SimObject,
    Symbol::LowerTrick,
    Symbol::Thread,
    Symbol::OtherThread,
    Symbol::Phase,
    Symbol::OtherPhase,
];

// "(" ")" "{" { job } "}", after the name of a constructor
#[tactic(auto, unfolding(crate::specs::Files::constructor_body))]
fn read_constructor_rest<'a>(
    alloc: Global,
    source: Source,
    rest: &'a [Token],
) -> Result<(Vec<JobLine>, &'a [Token]), GrammarStop<'a, Symbol>>
    ensures { Gives (λ x. (map job_line_of x.0.items, x.1.now)) result
        (read number_of class_of [] (constructor_rest source.entry.text.now source.entry.limit) rest.now) }
{
    let (_, rest) = take(rest, Symbol::OpenParen)?;
    let (_, rest) = take(rest, Symbol::CloseParen)?;
    let (_, rest) = take(rest, Symbol::OpenBrace)?;
    let (jobs, rest) = read_jobs(alloc, source, rest)?;
    let (_, rest) = take(rest, Symbol::CloseBrace)?;
    Ok((jobs, rest))
}

// "bool" | "char" | "short" | "long" | "unsigned" [ "char" | "short" | "int" ]
#[tactic(auto, unfolding(crate::specs::Files::other_type_body))]
fn read_other_type(rest: &[Token]) -> Result<(Scalar, &[Token]), GrammarStop<Symbol>>
    ensures { Gives (λ x. (x.0, x.1.now)) result (read number_of class_of [] other_type rest.now) }
{
    if next_is_one_of(rest, &OTHER_SCALARS) {
        let (word, rest) = take_one_of(rest, &OTHER_SCALARS)?;
        return Ok((scalar_of(word.class), rest));
    }
    let (_, rest) = take(rest, Symbol::Unsigned)?;
    if next_is_one_of(rest, &UNSIGNED) {
        let (more, rest) = take_one_of(rest, &UNSIGNED)?;
        return Ok((unsigned_of(more), rest));
    }
    Ok((Scalar::UInt, rest))
}

// Members of a type, with their declarators.
fn members_part(written: TypeName, declarators: Vec<Declarator>) -> ClassPart
    ensures { result ≡ ClassPart.Members (record { written = written; declarators = declarators.items }) }
{
    ClassPart::Members(Members {
        written,
        declarators: Items::from_vec(declarators),
    })
}

// The lengths of the first member after "int" NAME, and the members after it
fn read_int_member<'a>(
    alloc: Global,
    source: Source,
    name: &Token,
    rest: &'a [Token],
) -> Result<(ClassPart, &'a [Token]), GrammarStop<'a, Symbol>>
    ensures { Gives (λ x. (class_part_of x.0, x.1.now)) result
        (read number_of class_of [] (act (λ v. int_part_of source.entry.text.now source.entry.limit name.now v)
        (int_member source.entry.text.now source.entry.limit)) rest.now) }
{
    let (lengths, rest) = read_lengths(alloc, rest)?;
    let (mut declarators, rest) = read_more_declarators(alloc, source, rest)?;
    let name = name_of(alloc, source.text, name)?;
    declarators.insert(0, Declarator { name, lengths })?;
    Ok((
        members_part(TypeName::Basic(Scalar::Int), declarators),
        rest,
    ))
}

// The method of this name with these statements.
fn method_part(
    alloc: Global,
    text: &[u8],
    name: &Token,
    body: Items<Stmt>,
) -> Result<ClassPart, AllocError>
    ensures { IfOk result (λ p. class_part_of p ≡ SyntaxTree.HasMethod
        (record { name = text_of text.now name.now; body = statements_of_list body })) }
{
    let name = name_of(alloc, text, name)?;
    Ok(ClassPart::Method(Method { name, body }))
}

// What stands after "int" NAME: a method or members
#[tactic(auto, unfolding(crate::specs::Files::after_int_body))]
fn read_after_int<'a>(
    alloc: Global,
    source: Source,
    depth: usize,
    name: &Token,
    rest: &'a [Token],
) -> Result<(ClassPart, &'a [Token]), GrammarStop<'a, Symbol>>
    ensures { Gives (λ x. (class_part_of x.0, x.1.now)) result
        (read number_of class_of [] (act (λ v. int_part_of source.entry.text.now source.entry.limit name.now v)
        (after_int source.entry.text.now source.entry.limit depth)) rest.now) }
{
    if !next_is(rest, Symbol::OpenParen) {
        return read_int_member(alloc, source, name, rest);
    }
    let (body, rest) = read_int_rest(alloc, source, depth, rest)?;
    Ok((method_part(alloc, source.text, name, body)?, rest))
}

// `trick` "(" ")" "{" { stmt } return "}"
fn read_trick_method<'a>(
    alloc: Global,
    source: Source,
    depth: usize,
    rest: &'a [Token],
) -> Result<(ClassPart, &'a [Token]), GrammarStop<'a, Symbol>>
    ensures { Gives (λ x. (class_part_of x.0, x.1.now)) result
        (read number_of class_of [] (trick_method source.entry.text.now source.entry.limit depth) rest.now) }
{
    let (name, rest) = take(rest, Symbol::LowerTrick)?;
    let (_, rest) = take_hinted(rest, &[Symbol::OpenParen], Refusal::BadName)?;
    let (body, rest) = read_int_inside(alloc, source, depth, rest)?;
    Ok((method_part(alloc, source.text, name, body)?, rest))
}

// NAME and what stands after it, after "int"
#[tactic(auto, unfolding(crate::specs::Files::int_part_body))]
fn read_int_part<'a>(
    alloc: Global,
    source: Source,
    depth: usize,
    rest: &'a [Token],
) -> Result<(ClassPart, &'a [Token]), GrammarStop<'a, Symbol>>
    ensures { Gives (λ x. (class_part_of x.0, x.1.now)) result
        (read number_of class_of [] (int_part source.entry.text.now source.entry.limit depth) rest.now) }
{
    let pointers = [Symbol::Times, Symbol::BitAnd];
    if next_is_one_of(rest, &pointers) {
        let reason = reason_at(rest, Refusal::NotInProfile, &pointers);
        return Err(GrammarStop::At(reason, rest));
    }
    if next_is(rest, Symbol::LowerTrick) {
        return read_trick_method(alloc, source, depth, rest);
    }
    let (name, rest) = take_one_of(rest, &FREE_NAMES)?;
    read_after_int(alloc, source, depth, name, rest)
}

// What stands after the NAME that a part begins with: a constructor's jobs, or members
#[tactic(auto, using(crate::proofs::Lists::lists_are), unfolding(crate::specs::Files::after_name_body))]
fn read_after_name<'a>(
    alloc: Global,
    source: Source,
    name: &Token,
    rest: &'a [Token],
) -> Result<(ClassPart, &'a [Token]), GrammarStop<'a, Symbol>>
    ensures { Gives (λ x. (class_part_of x.0, x.1.now)) result
        (read number_of class_of [] (act (λ v. named_part_of source.entry.text.now source.entry.limit name.now v)
        (after_name source.entry.text.now source.entry.limit)) rest.now) }
{
    let line = name.line;
    if next_is(rest, Symbol::OpenParen) {
        let (jobs, rest) = read_constructor_rest(alloc, source, rest)?;
        let name = name_of(alloc, source.text, name)?;
        let jobs = Items::from_vec(jobs);
        return Ok((ClassPart::Constructor { line, name, jobs }, rest));
    }
    let (declarators, rest) = read_declarators(alloc, source, rest)?;
    let name = name_of(alloc, source.text, name)?;
    Ok((
        members_part(TypeName::Custom { line, name }, declarators),
        rest,
    ))
}

// "void" NAME "(" ")" block
fn read_void_method<'a>(
    alloc: Global,
    source: Source,
    depth: usize,
    rest: &'a [Token],
) -> Result<(ClassPart, &'a [Token]), GrammarStop<'a, Symbol>>
    ensures { Gives (λ x. (class_part_of x.0, x.1.now)) result
        (read number_of class_of [] (void_method source.entry.text.now source.entry.limit depth) rest.now) }
{
    let (_, rest) = take(rest, Symbol::Void)?;
    let (name, rest) = take_one_of(rest, &NAMES)?;
    let (body, rest) = read_void_rest(alloc, source, depth, rest)?;
    Ok((method_part(alloc, source.text, name, body)?, rest))
}

// Members of a type of keywords other than "int"
#[tactic(auto, using(crate::proofs::Lists::declarators_are))]
fn read_basic_part<'a>(
    alloc: Global,
    source: Source,
    rest: &'a [Token],
) -> Result<(ClassPart, &'a [Token]), GrammarStop<'a, Symbol>>
    ensures { Gives (λ x. (class_part_of x.0, x.1.now)) result
        (read number_of class_of [] (basic_part source.entry.text.now source.entry.limit) rest.now) }
{
    let (scalar, rest) = read_other_type(rest)?;
    let (declarators, rest) = read_declarators(alloc, source, rest)?;
    Ok((members_part(TypeName::Basic(scalar), declarators), rest))
}

// A constructor, or members of a type with a name
fn read_named_part<'a>(
    alloc: Global,
    source: Source,
    rest: &'a [Token],
) -> Result<(ClassPart, &'a [Token]), GrammarStop<'a, Symbol>>
    ensures { Gives (λ x. (class_part_of x.0, x.1.now)) result
        (read number_of class_of [] (named_part source.entry.text.now source.entry.limit) rest.now) }
{
    let (name, rest) = take_one_of(rest, &NAMES)?;
    read_after_name(alloc, source, name, rest)
}

// part = "public" ":" | member | method | constructor
#[tactic(auto, unfolding(crate::specs::Files::part_body))]
fn read_part<'a>(
    alloc: Global,
    source: Source,
    depth: usize,
    rest: &'a [Token],
) -> Result<(ClassPart, &'a [Token]), GrammarStop<'a, Symbol>>
    ensures { Gives (λ x. (class_part_of x.0, x.1.now)) result
        (read number_of class_of [] (part source.entry.text.now source.entry.limit depth) rest.now) }
{
    if next_is(rest, Symbol::Public) {
        let (_, rest) = take(rest, Symbol::Public)?;
        let (_, rest) = take(rest, Symbol::Colon)?;
        return Ok((ClassPart::Public, rest));
    }
    if next_is(rest, Symbol::Void) {
        return read_void_method(alloc, source, depth, rest);
    }
    if next_is(rest, Symbol::Int) {
        let (_, rest) = take(rest, Symbol::Int)?;
        return read_int_part(alloc, source, depth, rest);
    }
    if next_is_one_of(rest, &OTHER_BASIC) {
        return read_basic_part(alloc, source, rest);
    }
    read_named_part(alloc, source, rest)
}

// { part }
fn read_parts<'a>(
    alloc: Global,
    source: Source,
    depth: usize,
    rest: &'a [Token],
) -> Result<(Vec<ClassPart>, &'a [Token]), GrammarStop<'a, Symbol>>
    ensures { Gives (λ x. (map class_part_of x.0.items, x.1.now)) result
        (read number_of class_of [] (repetition source.entry.limit
        (part source.entry.text.now source.entry.limit depth)) rest.now) }
{
    let mut found = Vec::new(alloc);
    let mut left = source.limit;
    let mut rest = rest;
    while next_is_one_of(rest, &PART_BEGINNINGS) {
        if left == 0 {
            return Err(GrammarStop::At(Refusal::TooLong, rest));
        }
        let (part, after) = read_part(alloc, source, depth, rest)?;
        found.push(part)?;
        rest = after;
        left -= 1;
    }
    Ok((found, rest))
}

// "class" NAME ":" "public" "Trick" "::" "SimObject" "{"
#[tactic(auto, unfolding(crate::specs::Files::class_head_body))]
fn read_class_head(rest: &[Token]) -> Result<(&Token, &[Token]), GrammarStop<Symbol>>
    ensures { Gives (λ x. (x.0.now, x.1.now)) result (read number_of class_of [] class_head rest.now) }
{
    let (_, rest) = take(rest, Symbol::Class)?;
    let (name, rest) = take_free_name(rest)?;
    let (_, rest) = take(rest, Symbol::Colon)?;
    let (_, rest) = take(rest, Symbol::Public)?;
    let (_, rest) = take(rest, Symbol::UpperTrick)?;
    let (_, rest) = take(rest, Symbol::DoubleColon)?;
    let (_, rest) = take(rest, Symbol::SimObject)?;
    let (_, rest) = take(rest, Symbol::OpenBrace)?;
    Ok((name, rest))
}

// The class of this name with these parts.
#[tactic(auto, using(crate::proofs::Lists::parts_are))]
fn class_from(
    alloc: Global,
    text: &[u8],
    name: &Token,
    parts: Vec<ClassPart>,
) -> Result<Definition, AllocError>
    ensures { IfOk result (λ d. definition_of d
        ≡ SyntaxTree.ClassOf (text_of text.now name.now) (map class_part_of parts.items)) }
{
    Ok(Definition::Class {
        name: name_of(alloc, text, name)?,
        parts: Items::from_vec(parts),
    })
}

/// class = "class" NAME ":" "public" "Trick" "::" "SimObject" "{" { part } "}" ";"
#[tactic(auto, unfolding(crate::specs::Files::class_body))]
pub fn read_class<'a>(
    alloc: Global,
    source: Source,
    depth: usize,
    rest: &'a [Token],
) -> Result<(Definition, &'a [Token]), GrammarStop<'a, Symbol>>
    ensures { Gives (λ x. (definition_of x.0, x.1.now)) result
        (read number_of class_of [] (class source.entry.text.now source.entry.limit depth) rest.now) }
{
    let (name, rest) = read_class_head(rest)?;
    let (parts, rest) = read_parts(alloc, source, depth, rest)?;
    let (_, rest) = take_closing(rest)?;
    Ok((class_from(alloc, source.text, name, parts)?, rest))
}
