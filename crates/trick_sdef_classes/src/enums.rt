//! Enums.

ghost use Rattle.std.specs.Prelude.{◌≡◌, ◌≤◌, ◌-◌, ◌∷◌, [], IfOk, map};
ghost use Rattle.trick_body_symbols.specs.Symbols.{number_of};
ghost use Rattle.trick_grammar.specs.Gives.{Gives, class_of, text_of};
ghost use Rattle.trick_grammar.specs.Reading.{prefixed, read};
ghost use Rattle.trick_body_symbols.specs.Expressions.{names};
ghost use Rattle.trick_body_symbols.specs.declared.symbol.Symbol.TheVariants.{Assign, Comma};
ghost use Rattle.trick_grammar.specs.Grammar.{optional};
ghost use Rattle.trick_grammar.specs.Separated.{more_items};
ghost use Rattle.trick_lang.specs.Syntax.{definition_of};
ghost use Rattle.trick_lang.specs.SyntaxTree;
ghost use Rattle.trick_sdef_classes.specs.Members.{enum, item, item_body, item_value, items};
ghost use Rattle.trick_sdef_classes.specs.Trees.{item_of};

use crate::members::take_closing;
use crate::names::take_free_name;
use std::alloc::{AllocError, Global};
use trick_base::Items;
use trick_body_symbols::{NAMES, Source, Symbol, Token, WHOLES, name_of};
use trick_grammar::{GrammarStop, Refusal, next_is, next_is_one_of, take, take_one_of};
use trick_lang::syntax::{Definition, EnumItem};

// "=" [ "-" ] WHOLE
#[tactic(auto, unfolding(crate::specs::Members::item_value_body))]
fn read_value(rest: &[Token]) -> Result<(i128, &[Token]), GrammarStop<Symbol>>
    ensures { Gives (λ x. (x.0, x.1.now)) result (read number_of class_of [] item_value rest.now) }
{
    let (_, rest) = take(rest, Symbol::Assign)?;
    if next_is(rest, Symbol::Minus) {
        let (_, rest) = take(rest, Symbol::Minus)?;
        let (whole, rest) = take_one_of(rest, &WHOLES)?;
        return Ok((0 - i128::from(whole.number), rest));
    }
    let (whole, rest) = take_one_of(rest, &WHOLES)?;
    Ok((i128::from(whole.number), rest))
}

// [ "=" [ "-" ] WHOLE ]
fn read_written_value(rest: &[Token]) -> Result<(Option<i128>, &[Token]), GrammarStop<Symbol>>
    ensures { Gives (λ x. (x.0, x.1.now)) result
        (read number_of class_of [] (optional item_value) rest.now) }
{
    if next_is(rest, Symbol::Assign) {
        let (value, rest) = read_value(rest)?;
        return Ok((Some(value), rest));
    }
    Ok((None, rest))
}

// item = NAME [ "=" [ "-" ] WHOLE ]
#[tactic(auto, unfolding(crate::specs::Members::item_body))]
fn read_item<'a>(
    alloc: Global,
    source: Source,
    rest: &'a [Token],
) -> Result<(EnumItem, &'a [Token]), GrammarStop<'a, Symbol>>
    ensures { Gives (λ x. (item_of x.0, x.1.now)) result
        (read number_of class_of [] (item source.entry.text.now) rest.now) }
{
    let (name, rest) = take_one_of(rest, &NAMES)?;
    let (value, rest) = read_written_value(rest)?;
    let item = EnumItem {
        line: name.line,
        name: name_of(alloc, source.text, name)?,
        value,
    };
    Ok((item, rest))
}

// item { "," item } [ "," ]
#[tactic(auto, unfolding(trick_grammar::specs::Separated::separated_body))]
fn read_items<'a>(
    alloc: Global,
    source: Source,
    rest: &'a [Token],
) -> Result<(Vec<EnumItem>, &'a [Token]), GrammarStop<'a, Symbol>>
    requires { 1 ≤ source.limit }
    ensures { Gives (λ x. (map item_of x.0.items, x.1.now)) result
        (read number_of class_of [] (items source.entry.text.now source.entry.limit) rest.now) }
{
    let (first, rest) = read_item(alloc, source, rest)?;
    read_more_items(alloc, source, first, rest)
}

// { "," item } [ "," ], after the first item
fn read_more_items<'a>(
    alloc: Global,
    source: Source,
    first: EnumItem,
    rest: &'a [Token],
) -> Result<(Vec<EnumItem>, &'a [Token]), GrammarStop<'a, Symbol>>
    requires { 1 ≤ source.limit }
    ensures { Gives (λ x. (map item_of x.0.items, x.1.now)) result
        (prefixed (item_of first ∷ []) (read number_of class_of []
        (more_items Comma names (Assign ∷ []) (item_body source.entry.text.now) (source.entry.limit - 1)) rest.now)) }
{
    let mut found = Vec::new(alloc);
    found.push(first)?;
    let mut rest = rest;
    while next_is(rest, Symbol::Comma) {
        let (_, after) = take(rest, Symbol::Comma)?;
        if !next_is_one_of(after, &NAMES) {
            return Ok((found, after));
        }
        if found.len() == source.limit {
            return Err(GrammarStop::At(Refusal::TooLong, after));
        }
        let (item, after) = read_item(alloc, source, after)?;
        found.push(item)?;
        rest = after;
    }
    Ok((found, rest))
}

// The enum of this name with these items.
#[tactic(auto, using(crate::proofs::Lists::items_are))]
fn enum_from(
    alloc: Global,
    text: &[u8],
    name: &Token,
    items: Vec<EnumItem>,
) -> Result<Definition, AllocError>
    ensures { IfOk result (λ d. definition_of d
        ≡ SyntaxTree.Enum (text_of text.now name.now) (map item_of items.items)) }
{
    Ok(Definition::Enum {
        name: name_of(alloc, text, name)?,
        items: Items::from_vec(items),
    })
}

/// enum = "enum" NAME "{" item { "," item } [ "," ] "}" ";"
#[tactic(auto, unfolding(crate::specs::Members::enum_body))]
pub fn read_enum<'a>(
    alloc: Global,
    source: Source,
    rest: &'a [Token],
) -> Result<(Definition, &'a [Token]), GrammarStop<'a, Symbol>>
    requires { 1 ≤ source.limit }
    ensures { Gives (λ x. (definition_of x.0, x.1.now)) result
        (read number_of class_of [] (enum source.entry.text.now source.entry.limit) rest.now) }
{
    let (_, rest) = take(rest, Symbol::Enum)?;
    let (name, rest) = take_free_name(rest)?;
    let (_, rest) = take(rest, Symbol::OpenBrace)?;
    let (items, rest) = read_items(alloc, source, rest)?;
    let (_, rest) = take_closing(rest)?;
    Ok((enum_from(alloc, source.text, name, items)?, rest))
}
