//! The definitions of a file: one function for each production, with its line of the grammar.

ghost use Rattle.std.specs.Prelude.{◌≡◌, ◌≤◌, [], map};
ghost use Rattle.trick_body_symbols.specs.Symbols.{number_of};
ghost use Rattle.trick_grammar.specs.Gives.{Gives, class_of};
ghost use Rattle.trick_grammar.specs.Reading.{read};
ghost use Rattle.trick_grammar.specs.Grammar.{repetition};
ghost use Rattle.trick_lang.specs.Syntax.{definition_of};
ghost use Rattle.trick_sdef_classes.specs.Files.{definition, file, include, included, object};

use crate::classes::read_class;
use crate::enums::read_enum;
use crate::members::read_struct;
use crate::names::take_free_name;
use std::alloc::Global;
use trick_body_symbols::{NAMES, Source, Symbol, Token, name_of};
use trick_grammar::{GrammarStop, Refusal, next_is, next_is_one_of, reason_at, take, take_one_of};
use trick_lang::syntax::Definition;

// What names another file than the one that may be included.
const OTHER_FILES: [Symbol; 12] = [
    Symbol::Less,
    Symbol::Text,
    Symbol::Scheduled,
    Symbol::DefaultData,
    Symbol::Initialization,
    Symbol::TopOfFrame,
    Symbol::EndOfFrame,
    Symbol::Freeze,
    Symbol::Unfreeze,
    Symbol::Checkpoint,
    Symbol::Restart,
    Symbol::Shutdown,
];

// What a definition begins with.
const BEGINNINGS: [Symbol; 12] = [
    Symbol::Hash,
    Symbol::Enum,
    Symbol::Struct,
    Symbol::Class,
    Symbol::Name,
    Symbol::UpperTrick,
    Symbol::SimObject,
    Symbol::LowerTrick,
    Symbol::Thread,
    Symbol::OtherThread,
    Symbol::Phase,
    Symbol::OtherPhase,
];

// The file of an include.
fn take_included(rest: &[Token]) -> Result<(&Token, &[Token]), GrammarStop<Symbol>>
    ensures { Gives (λ x. (x.0.now, x.1.now)) result (read number_of class_of [] included rest.now) }
{
    if next_is_one_of(rest, &OTHER_FILES) {
        let reason = reason_at(rest, Refusal::NotInProfile, &OTHER_FILES);
        return Err(GrammarStop::At(reason, rest));
    }
    take(rest, Symbol::KnownFile)
}

// include = "#" "include" "\"sim_objects/default_trick_sys.sm\""
#[tactic(auto, unfolding(crate::specs::Files::include_body))]
fn read_include<'a>(rest: &'a [Token]) -> Result<(Definition, &'a [Token]), GrammarStop<'a, Symbol>>
    ensures { Gives (λ x. (definition_of x.0, x.1.now)) result
        (read number_of class_of [] include rest.now) }
{
    let (_, rest) = take(rest, Symbol::Hash)?;
    let (_, rest) = take(rest, Symbol::Include)?;
    let (_, rest) = take_included(rest)?;
    Ok((Definition::Include, rest))
}

// object = NAME NAME ";"
#[tactic(auto, unfolding(crate::specs::Files::object_body))]
fn read_object<'a>(
    alloc: Global,
    source: Source,
    rest: &'a [Token],
) -> Result<(Definition, &'a [Token]), GrammarStop<'a, Symbol>>
    ensures { Gives (λ x. (definition_of x.0, x.1.now)) result
        (read number_of class_of [] (object source.entry.text.now source.entry.limit) rest.now) }
{
    let (class, rest) = take_one_of(rest, &NAMES)?;
    let (name, rest) = take_free_name(rest)?;
    let (_, rest) = take(rest, Symbol::Semicolon)?;
    let definition = Definition::Object {
        line: class.line,
        class: name_of(alloc, source.text, class)?,
        name: name_of(alloc, source.text, name)?,
    };
    Ok((definition, rest))
}

// include | enum | struct | class | object
#[tactic(auto, unfolding(crate::specs::Files::definition_body))]
fn read_definition<'a>(
    alloc: Global,
    source: Source,
    depth: usize,
    rest: &'a [Token],
) -> Result<(Definition, &'a [Token]), GrammarStop<'a, Symbol>>
    requires { 1 ≤ source.limit }
    ensures { Gives (λ x. (definition_of x.0, x.1.now)) result
        (read number_of class_of [] (definition source.entry.text.now source.entry.limit depth) rest.now) }
{
    if next_is(rest, Symbol::Hash) {
        return read_include(rest);
    }
    if next_is(rest, Symbol::Enum) {
        return read_enum(alloc, source, rest);
    }
    if next_is(rest, Symbol::Struct) {
        return read_struct(alloc, source, rest);
    }
    if next_is(rest, Symbol::Class) {
        return read_class(alloc, source, depth, rest);
    }
    read_object(alloc, source, rest)
}

/// file = { include | enum | struct | class | object }
#[tactic(auto, unfolding(crate::specs::Files::file_body))]
pub fn read_file<'a>(
    alloc: Global,
    source: Source,
    depth: usize,
    rest: &'a [Token],
) -> Result<(Vec<Definition>, &'a [Token]), GrammarStop<'a, Symbol>>
    requires { 1 ≤ source.limit }
    ensures { Gives (λ x. (map definition_of x.0.items, x.1.now)) result
        (read number_of class_of [] (file source.entry.text.now source.entry.limit depth) rest.now) }
{
    read_definitions(alloc, source, depth, rest)
}

// { definition }
fn read_definitions<'a>(
    alloc: Global,
    source: Source,
    depth: usize,
    rest: &'a [Token],
) -> Result<(Vec<Definition>, &'a [Token]), GrammarStop<'a, Symbol>>
    requires { 1 ≤ source.limit }
    ensures { Gives (λ x. (map definition_of x.0.items, x.1.now)) result
        (read number_of class_of [] (repetition source.entry.limit
        (definition source.entry.text.now source.entry.limit depth)) rest.now) }
{
    let mut found = Vec::new(alloc);
    let mut left = source.limit;
    let mut rest = rest;
    while next_is_one_of(rest, &BEGINNINGS) {
        if left == 0 {
            return Err(GrammarStop::At(Refusal::TooLong, rest));
        }
        let (definition, after) = read_definition(alloc, source, depth, rest)?;
        found.push(definition)?;
        rest = after;
        left -= 1;
    }
    Ok((found, rest))
}
