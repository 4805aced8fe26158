//! Members of structs and classes.

ghost use Rattle.std.specs.Prelude.{◌≡◌, ◌≤◌, ◌-◌, [], IfOk, map};
ghost use Rattle.trick_body_symbols.specs.Symbols.{number_of};
ghost use Rattle.trick_grammar.specs.Gives.{Gives, class_of, text_of};
ghost use Rattle.trick_grammar.specs.Reading.{read};
ghost use Rattle.trick_grammar.specs.Grammar.{repetition};
ghost use Rattle.trick_lang.specs.Syntax.{definition_of, members_of};
ghost use Rattle.trick_lang.specs.SyntaxTree;
ghost use Rattle.trick_sdef_classes.specs.Members.{closing, declared_name, declarator, declarators, length, length_end, length_number, lengths, member, more_declarators, next_declarator, struct};
ghost use Rattle.trick_sdef_classes.specs.Trees.{declarator_of};

use crate::names::take_free_name;
use std::alloc::{AllocError, Global};
use trick_base::Items;
use trick_body_symbols::{NAMES, Source, Symbol, Token, name_of, read_basic};
use trick_grammar::{GrammarStop, Refusal, next_is, next_is_one_of, reason_at, take, take_one_of};
use trick_lang::syntax::{Declarator, Definition, Members, TypeName};

// `*` and `&`, which make a pointer or a reference.
const POINTERS: [Symbol; 2] = [Symbol::Times, Symbol::BitAnd];

// What a type of keywords begins with.
const BASIC_BEGINNINGS: [Symbol; 6] = [
    Symbol::Bool,
    Symbol::Char,
    Symbol::Short,
    Symbol::Int,
    Symbol::Long,
    Symbol::Unsigned,
];

// What a member begins with.
const MEMBER_BEGINNINGS: [Symbol; 14] = [
    Symbol::Bool,
    Symbol::Char,
    Symbol::Short,
    Symbol::Int,
    Symbol::Long,
    Symbol::Unsigned,
    Symbol::Name,
    Symbol::UpperTrick,
    Symbol::SimObject,
    Symbol::LowerTrick,
    Symbol::Thread,
    Symbol::OtherThread,
    Symbol::Phase,
    Symbol::OtherPhase,
];

// WHOLE, as a length.
fn take_length_number(rest: &[Token]) -> Result<(&Token, &[Token]), GrammarStop<Symbol>>
    ensures { Gives (λ x. (x.0.now, x.1.now)) result
        (read number_of class_of [] length_number rest.now) }
{
    let refused = [
        Symbol::Times,
        Symbol::BitAnd,
        Symbol::Zero,
        Symbol::LongZero,
    ];
    if next_is_one_of(rest, &refused) {
        let reason = reason_at(rest, Refusal::NotInProfile, &refused);
        return Err(GrammarStop::At(reason, rest));
    }
    let lengths = [Symbol::One, Symbol::Small, Symbol::Large, Symbol::Huge];
    take_one_of(rest, &lengths)
}

// "]", after a length.
fn take_length_end(rest: &[Token]) -> Result<(&Token, &[Token]), GrammarStop<Symbol>>
    ensures { Gives (λ x. (x.0.now, x.1.now)) result
        (read number_of class_of [] length_end rest.now) }
{
    if next_is_one_of(rest, &POINTERS) {
        let reason = reason_at(rest, Refusal::NotInProfile, &POINTERS);
        return Err(GrammarStop::At(reason, rest));
    }
    take(rest, Symbol::CloseBracket)
}

// "[" WHOLE "]"
#[tactic(auto, unfolding(crate::specs::Members::length_body))]
fn read_length(rest: &[Token]) -> Result<(u64, &[Token]), GrammarStop<Symbol>>
    ensures { Gives (λ x. (x.0, x.1.now)) result (read number_of class_of [] length rest.now) }
{
    let (_, rest) = take(rest, Symbol::OpenBracket)?;
    let (number, rest) = take_length_number(rest)?;
    let (_, rest) = take_length_end(rest)?;
    Ok((number.number, rest))
}

/// [ "[" WHOLE "]" [ "[" WHOLE "]" ] ]
#[tactic(auto, unfolding(crate::specs::Members::lengths_body))]
pub fn read_lengths<'a>(
    alloc: Global,
    rest: &'a [Token],
) -> Result<(Items<u64>, &'a [Token]), GrammarStop<'a, Symbol>>
    ensures { Gives (λ x. (x.0, x.1.now)) result (read number_of class_of [] lengths rest.now) }
{
    let mut found = Items::new(alloc);
    if !next_is(rest, Symbol::OpenBracket) {
        return Ok((found, rest));
    }
    let (first, rest) = read_length(rest)?;
    found.push(first)?;
    if !next_is(rest, Symbol::OpenBracket) {
        return Ok((found, rest));
    }
    let (second, rest) = read_length(rest)?;
    found.push(second)?;
    Ok((found, rest))
}

// NAME, as a member's name.
fn take_declared_name(rest: &[Token]) -> Result<(&Token, &[Token]), GrammarStop<Symbol>>
    ensures { Gives (λ x. (x.0.now, x.1.now)) result
        (read number_of class_of [] declared_name rest.now) }
{
    if next_is_one_of(rest, &POINTERS) {
        let reason = reason_at(rest, Refusal::NotInProfile, &POINTERS);
        return Err(GrammarStop::At(reason, rest));
    }
    take_free_name(rest)
}

// declarator = NAME [ "[" WHOLE "]" [ "[" WHOLE "]" ] ]
#[tactic(auto, unfolding(crate::specs::Members::declarator_body))]
fn read_declarator<'a>(
    alloc: Global,
    source: Source,
    rest: &'a [Token],
) -> Result<(Declarator, &'a [Token]), GrammarStop<'a, Symbol>>
    ensures { Gives (λ x. (declarator_of x.0, x.1.now)) result
        (read number_of class_of [] (declarator source.entry.text.now) rest.now) }
{
    let (name, rest) = take_declared_name(rest)?;
    let (lengths, rest) = read_lengths(alloc, rest)?;
    let declarator = Declarator {
        name: name_of(alloc, source.text, name)?,
        lengths,
    };
    Ok((declarator, rest))
}

// "," declarator
fn read_next_declarator<'a>(
    alloc: Global,
    source: Source,
    rest: &'a [Token],
) -> Result<(Declarator, &'a [Token]), GrammarStop<'a, Symbol>>
    ensures { Gives (λ x. (declarator_of x.0, x.1.now)) result
        (read number_of class_of [] (next_declarator source.entry.text.now) rest.now) }
{
    let (_, rest) = take(rest, Symbol::Comma)?;
    read_declarator(alloc, source, rest)
}

// { "," declarator }, after the first one
fn read_next_declarators<'a>(
    alloc: Global,
    source: Source,
    rest: &'a [Token],
) -> Result<(Vec<Declarator>, &'a [Token]), GrammarStop<'a, Symbol>>
    ensures { Gives (λ x. (map declarator_of x.0.items, x.1.now)) result
        (read number_of class_of [] (repetition (source.entry.limit - 1) (next_declarator source.entry.text.now))
        rest.now) }
{
    let mut found = Vec::new(alloc);
    let mut left = source.limit.saturating_sub(1);
    let mut rest = rest;
    while next_is(rest, Symbol::Comma) {
        if left == 0 {
            return Err(GrammarStop::At(Refusal::TooLong, rest));
        }
        let (declarator, after) = read_next_declarator(alloc, source, rest)?;
        found.push(declarator)?;
        rest = after;
        left -= 1;
    }
    Ok((found, rest))
}

/// { "," declarator } ";", after the first one
#[tactic(auto, unfolding(crate::specs::Members::more_declarators_body))]
pub fn read_more_declarators<'a>(
    alloc: Global,
    source: Source,
    rest: &'a [Token],
) -> Result<(Vec<Declarator>, &'a [Token]), GrammarStop<'a, Symbol>>
    ensures { Gives (λ x. (map declarator_of x.0.items, x.1.now)) result
        (read number_of class_of [] (more_declarators source.entry.text.now source.entry.limit) rest.now) }
{
    let (found, rest) = read_next_declarators(alloc, source, rest)?;
    let (_, rest) = take(rest, Symbol::Semicolon)?;
    Ok((found, rest))
}

/// declarator { "," declarator } ";"
#[tactic(auto, unfolding(crate::specs::Members::declarators_body))]
pub fn read_declarators<'a>(
    alloc: Global,
    source: Source,
    rest: &'a [Token],
) -> Result<(Vec<Declarator>, &'a [Token]), GrammarStop<'a, Symbol>>
    ensures { Gives (λ x. (map declarator_of x.0.items, x.1.now)) result
        (read number_of class_of [] (declarators source.entry.text.now source.entry.limit) rest.now) }
{
    let (first, rest) = read_declarator(alloc, source, rest)?;
    let (mut found, rest) = read_more_declarators(alloc, source, rest)?;
    found.insert(0, first)?;
    Ok((found, rest))
}

// member = type declarator { "," declarator } ";"
#[tactic(auto, using(crate::proofs::Lists::declarators_are), unfolding(crate::specs::Members::member_body))]
fn read_member<'a>(
    alloc: Global,
    source: Source,
    rest: &'a [Token],
) -> Result<(Members, &'a [Token]), GrammarStop<'a, Symbol>>
    ensures { Gives (λ x. (members_of x.0, x.1.now)) result
        (read number_of class_of [] (member source.entry.text.now source.entry.limit) rest.now) }
{
    if next_is_one_of(rest, &BASIC_BEGINNINGS) {
        let ((_, scalar), rest) = read_basic(rest)?;
        let (declarators, rest) = read_declarators(alloc, source, rest)?;
        let members = Members {
            written: TypeName::Basic(scalar),
            declarators: Items::from_vec(declarators),
        };
        return Ok((members, rest));
    }
    let (word, rest) = take_one_of(rest, &NAMES)?;
    let (declarators, rest) = read_declarators(alloc, source, rest)?;
    let line = word.line;
    let name = name_of(alloc, source.text, word)?;
    let members = Members {
        written: TypeName::Custom { line, name },
        declarators: Items::from_vec(declarators),
    };
    Ok((members, rest))
}

// { member }
fn read_members<'a>(
    alloc: Global,
    source: Source,
    rest: &'a [Token],
) -> Result<(Vec<Members>, &'a [Token]), GrammarStop<'a, Symbol>>
    ensures { Gives (λ x. (map members_of x.0.items, x.1.now)) result
        (read number_of class_of [] (repetition source.entry.limit
        (member source.entry.text.now source.entry.limit)) rest.now) }
{
    let mut found = Vec::new(alloc);
    let mut left = source.limit;
    let mut rest = rest;
    while next_is_one_of(rest, &MEMBER_BEGINNINGS) {
        if left == 0 {
            return Err(GrammarStop::At(Refusal::TooLong, rest));
        }
        let (members, after) = read_member(alloc, source, rest)?;
        found.push(members)?;
        rest = after;
        left -= 1;
    }
    Ok((found, rest))
}

/// "}" ";", which ends an enum, a struct and a class
pub fn take_closing<'a>(
    rest: &'a [Token],
) -> Result<((&'a Token, &'a Token), &'a [Token]), GrammarStop<'a, Symbol>>
    ensures { Gives (λ x. ((x.0.0.now, x.0.1.now), x.1.now)) result
        (read number_of class_of [] closing rest.now) }
{
    let (brace, rest) = take(rest, Symbol::CloseBrace)?;
    let (end, rest) = take(rest, Symbol::Semicolon)?;
    Ok(((brace, end), rest))
}

// The struct of this name with these members.
#[tactic(auto, using(crate::proofs::Lists::members_are))]
fn struct_from(
    alloc: Global,
    text: &[u8],
    name: &Token,
    members: Vec<Members>,
) -> Result<Definition, AllocError>
    ensures { IfOk result (λ d. definition_of d
        ≡ SyntaxTree.Struct (text_of text.now name.now) (map members_of members.items)) }
{
    Ok(Definition::Struct {
        name: name_of(alloc, text, name)?,
        members: Items::from_vec(members),
    })
}

/// struct = "struct" NAME "{" { member } "}" ";"
#[tactic(auto, unfolding(crate::specs::Members::struct_body))]
pub fn read_struct<'a>(
    alloc: Global,
    source: Source,
    rest: &'a [Token],
) -> Result<(Definition, &'a [Token]), GrammarStop<'a, Symbol>>
    ensures { Gives (λ x. (definition_of x.0, x.1.now)) result
        (read number_of class_of [] (struct source.entry.text.now source.entry.limit) rest.now) }
{
    let (_, rest) = take(rest, Symbol::Struct)?;
    let (name, rest) = take_free_name(rest)?;
    let (_, rest) = take(rest, Symbol::OpenBrace)?;
    let (members, rest) = read_members(alloc, source, rest)?;
    let (_, rest) = take_closing(rest)?;
    Ok((struct_from(alloc, source.text, name, members)?, rest))
}
