//! Expressions and places: one function for each production, with its line of the grammar. The
//! functions of operators are over the level of precedence, where level 0 is the operand.

ghost use Rattle.std.specs.Prelude.{◌≡◌, ◌∷◌, [], ◌-◌, ℕ, suc, map};
ghost use Rattle.trick_body_statements.specs.Trees.{link_of, step_of};
ghost use Rattle.trick_body_symbols.specs.Expressions.{binary, choice, choose_of, enclosed, expression, link, member_step, named, nested, operand, place, prefix_with, some_steps, step, truth_literal, whole_literal};
ghost use Rattle.trick_body_symbols.specs.Symbols.{number_of};
ghost use Rattle.trick_body_symbols.specs.declared.nested.Nested.TheVariants.{Chosen, Indexed};
ghost use Rattle.trick_grammar.specs.Gives.{Gives, class_of};
ghost use Rattle.trick_grammar.specs.Grammar.{act, any_number, repetition};
ghost use Rattle.trick_grammar.specs.Reading.{prefixed, read};
ghost use Rattle.trick_lang.specs.Syntax.{expression_of, path_of};

use std::alloc::Global;
use trick_body_symbols::{
    NAMES, Nested, Source, Symbol, Token, WHOLES, marks, name_of, operator_of, prefix_of,
};
use trick_grammar::{GrammarStop, Refusal, next_is, next_is_one_of, reason_at, take, take_one_of};
use trick_lang::syntax::{Choice, Expr, Link, Part, Path};

// How many levels of precedence the binary operators have.
const LEVELS: usize = 10;

/// expression = or { "?" expression ":" or }
#[cycle(expressions)]
#[tactic(auto, unfolding(trick_body_symbols::specs::Expressions::expression_body))]
pub fn read_expression<'a>(
    alloc: Global,
    source: Source,
    depth: usize,
    rest: &'a [Token],
) -> Result<(Expr, &'a [Token]), GrammarStop<'a, Symbol>>
    ensures { Gives (λ x. (expression_of x.0, x.1.now)) result
        (read number_of class_of [] (expression source.entry.text.now source.entry.limit depth) rest.now) }
{
    let (first, rest) = read_binary(alloc, source, depth, LEVELS, rest)?;
    read_choices(alloc, source, depth, first, rest)
}

/// { "?" expression ":" or }, after the first test
#[cycle(expressions)]
fn read_choices<'a>(
    alloc: Global,
    source: Source,
    depth: usize,
    first: Expr,
    rest: &'a [Token],
) -> Result<(Expr, &'a [Token]), GrammarStop<'a, Symbol>>
    ensures { Gives (λ x. (expression_of x.0, x.1.now)) result
        (read number_of class_of [] (act (choose_of (expression_of first))
        (any_number (choice (nested source.entry.text.now source.entry.limit Chosen depth)
        (operand source.entry.text.now source.entry.limit depth)))) rest.now) }
{
    let mut found = Vec::new(alloc);
    let mut last = first;
    let mut rest = rest;
    while next_is(rest, Symbol::Question) {
        let ((value, next), after) = read_choice(alloc, source, depth, rest)?;
        found.push(Choice { test: last, value })?;
        last = next;
        rest = after;
    }
    if found.is_empty() {
        return Ok((last, rest));
    }
    Ok((Expr::Choose(found, Box::new(alloc, last)?), rest))
}

/// "?" expression ":" or
#[cycle(expressions)]
fn read_choice<'a>(
    alloc: Global,
    source: Source,
    depth: usize,
    rest: &'a [Token],
) -> Result<((Expr, Expr), &'a [Token]), GrammarStop<'a, Symbol>>
    ensures { Gives (λ x. ((expression_of x.0.0, expression_of x.0.1), x.1.now)) result
        (read number_of class_of []
        (choice (nested source.entry.text.now source.entry.limit Chosen depth)
        (operand source.entry.text.now source.entry.limit depth)) rest.now) }
{
    let (value, rest) = read_nested(alloc, source, depth, Nested::Chosen, rest)?;
    let (next, rest) = read_binary(alloc, source, depth, LEVELS, rest)?;
    Ok(((value, next), rest))
}

/// The operand, or a level above it.
#[cycle(expressions)]
fn read_binary<'a>(
    alloc: Global,
    source: Source,
    depth: usize,
    level: usize,
    rest: &'a [Token],
) -> Result<(Expr, &'a [Token]), GrammarStop<'a, Symbol>>
    ensures { Gives (λ x. (expression_of x.0, x.1.now)) result
        (read number_of class_of [] (binary level (operand source.entry.text.now source.entry.limit depth)) rest.now) }
{
    if level == 0 {
        return read_operand(alloc, source, depth, rest);
    }
    read_level(alloc, source, depth, level - 1, rest)
}

/// level = next { mark next }
#[cycle(expressions)]
fn read_level<'a>(
    alloc: Global,
    source: Source,
    depth: usize,
    level: usize,
    rest: &'a [Token],
) -> Result<(Expr, &'a [Token]), GrammarStop<'a, Symbol>>
    ensures { Gives (λ x. (expression_of x.0, x.1.now)) result
        (read number_of class_of [] (binary (suc level) (operand source.entry.text.now source.entry.limit depth))
        rest.now) }
{
    let (first, rest) = read_binary(alloc, source, depth, level, rest)?;
    let (links, rest) = read_links(alloc, source, depth, level, rest)?;
    if links.is_empty() {
        return Ok((first, rest));
    }
    Ok((Expr::Chain(Box::new(alloc, first)?, links), rest))
}

/// { mark next }
#[cycle(expressions)]
fn read_links<'a>(
    alloc: Global,
    source: Source,
    depth: usize,
    level: usize,
    rest: &'a [Token],
) -> Result<(Vec<Link>, &'a [Token]), GrammarStop<'a, Symbol>>
    ensures { Gives (λ x. (map link_of x.0.items, x.1.now)) result
        (read number_of class_of []
        (any_number (link level (binary level (operand source.entry.text.now source.entry.limit depth)))) rest.now) }
{
    let mut found = Vec::new(alloc);
    let mut rest = rest;
    while next_is_one_of(rest, marks(level)) {
        let (link, after) = read_link(alloc, source, depth, level, rest)?;
        found.push(link)?;
        rest = after;
    }
    Ok((found, rest))
}

/// mark next
#[cycle(expressions)]
fn read_link<'a>(
    alloc: Global,
    source: Source,
    depth: usize,
    level: usize,
    rest: &'a [Token],
) -> Result<(Link, &'a [Token]), GrammarStop<'a, Symbol>>
    ensures { Gives (λ x. (link_of x.0, x.1.now)) result
        (read number_of class_of [] (link level (binary level (operand source.entry.text.now source.entry.limit depth)))
        rest.now) }
{
    let (mark, rest) = take_one_of(rest, marks(level))?;
    let (operand, rest) = read_binary(alloc, source, depth, level, rest)?;
    Ok((
        Link {
            operator: operator_of(mark.class),
            operand,
        },
        rest,
    ))
}

/// operand = prefix operand | WHOLE | "true" | "false" | "(" expression ")" | place
#[cycle(expressions)]
#[tactic(auto, unfolding(trick_body_symbols::specs::Expressions::operand_body))]
fn read_operand<'a>(
    alloc: Global,
    source: Source,
    depth: usize,
    rest: &'a [Token],
) -> Result<(Expr, &'a [Token]), GrammarStop<'a, Symbol>>
    ensures { Gives (λ x. (expression_of x.0, x.1.now)) result
        (read number_of class_of [] (operand source.entry.text.now source.entry.limit depth) rest.now) }
{
    if next_is_one_of(rest, Nested::Prefixed.first()) {
        return read_nested(alloc, source, depth, Nested::Prefixed, rest);
    }
    if next_is_one_of(rest, &WHOLES) {
        return read_whole(rest);
    }
    if next_is(rest, Symbol::True) {
        return read_truth(rest, Symbol::True, true);
    }
    if next_is(rest, Symbol::False) {
        return read_truth(rest, Symbol::False, false);
    }
    if next_is(rest, Symbol::OpenParen) {
        return read_nested(alloc, source, depth, Nested::Parenthesized, rest);
    }
    read_named(alloc, source, depth, rest)
}

/// A place, or an enum item.
#[cycle(expressions)]
fn read_named<'a>(
    alloc: Global,
    source: Source,
    depth: usize,
    rest: &'a [Token],
) -> Result<(Expr, &'a [Token]), GrammarStop<'a, Symbol>>
    ensures { Gives (λ x. (expression_of x.0, x.1.now)) result
        (read number_of class_of [] (named source.entry.text.now source.entry.limit depth) rest.now) }
{
    let (path, rest) = read_place(alloc, source, depth, rest)?;
    Ok((Expr::Named(path), rest))
}

/// WHOLE
fn read_whole<'a>(rest: &'a [Token]) -> Result<(Expr, &'a [Token]), GrammarStop<'a, Symbol>>
    ensures { Gives (λ x. (expression_of x.0, x.1.now)) result
        (read number_of class_of [] whole_literal rest.now) }
{
    let (whole, rest) = take_one_of(rest, &WHOLES)?;
    let expression = Expr::Whole {
        line: whole.line,
        number: whole.number,
    };
    Ok((expression, rest))
}

/// "true" or "false"
fn read_truth<'a>(
    rest: &'a [Token],
    word: Symbol,
    value: bool,
) -> Result<(Expr, &'a [Token]), GrammarStop<'a, Symbol>>
    ensures { Gives (λ x. (expression_of x.0, x.1.now)) result
        (read number_of class_of [] (truth_literal word value) rest.now) }
{
    let (token, rest) = take(rest, word)?;
    let expression = Expr::Truth {
        line: token.line,
        value,
    };
    Ok((expression, rest))
}

/// What counts as a level: with no level left it is refused.
#[cycle(expressions)]
fn read_nested<'a>(
    alloc: Global,
    source: Source,
    depth: usize,
    kind: Nested,
    rest: &'a [Token],
) -> Result<(Expr, &'a [Token]), GrammarStop<'a, Symbol>>
    ensures { Gives (λ x. (expression_of x.0, x.1.now)) result
        (read number_of class_of [] (nested source.entry.text.now source.entry.limit kind depth) rest.now) }
{
    if depth == 0 {
        return read_too_deep(source, kind, rest);
    }
    read_inside(alloc, source, depth - 1, kind, rest)
}

#[tactic(auto, unfolding(trick_body_symbols::specs::Expressions::nested_body))]
fn read_too_deep<'a>(
    source: Source,
    kind: Nested,
    rest: &'a [Token],
) -> Result<(Expr, &'a [Token]), GrammarStop<'a, Symbol>>
    ensures { Gives (λ x. (expression_of x.0, x.1.now)) result
        (read number_of class_of [] (nested source.entry.text.now source.entry.limit kind 0) rest.now) }
{
    Err(GrammarStop::At(reason_at(rest, Refusal::TooDeep, kind.first()), rest))
}

/// What counts as a level, with one level more than stands inside.
#[cycle(expressions)]
#[tactic(auto, unfolding(trick_body_symbols::specs::Expressions::nested_body))]
fn read_inside<'a>(
    alloc: Global,
    source: Source,
    depth: usize,
    kind: Nested,
    rest: &'a [Token],
) -> Result<(Expr, &'a [Token]), GrammarStop<'a, Symbol>>
    ensures { Gives (λ x. (expression_of x.0, x.1.now)) result
        (read number_of class_of [] (nested source.entry.text.now source.entry.limit kind (suc depth)) rest.now) }
{
    match kind {
        Nested::Prefixed => read_prefix(alloc, source, depth, rest),
        Nested::Parenthesized => read_enclosed(
            alloc,
            source,
            depth,
            Symbol::OpenParen,
            Symbol::CloseParen,
            rest,
        ),
        Nested::Indexed => read_enclosed(
            alloc,
            source,
            depth,
            Symbol::OpenBracket,
            Symbol::CloseBracket,
            rest,
        ),
        Nested::Chosen => {
            read_enclosed(alloc, source, depth, Symbol::Question, Symbol::Colon, rest)
        }
    }
}

/// prefix operand
#[cycle(expressions)]
fn read_prefix<'a>(
    alloc: Global,
    source: Source,
    depth: usize,
    rest: &'a [Token],
) -> Result<(Expr, &'a [Token]), GrammarStop<'a, Symbol>>
    ensures { Gives (λ x. (expression_of x.0, x.1.now)) result
        (read number_of class_of [] (prefix_with (operand source.entry.text.now source.entry.limit depth)) rest.now) }
{
    let (mark, rest) = take_one_of(rest, Nested::Prefixed.first())?;
    let (operand, rest) = read_operand(alloc, source, depth, rest)?;
    Ok((
        Expr::Prefixed(prefix_of(mark.class), Box::new(alloc, operand)?),
        rest,
    ))
}

/// An expression between two marks.
#[cycle(expressions)]
fn read_enclosed<'a>(
    alloc: Global,
    source: Source,
    depth: usize,
    first: Symbol,
    last: Symbol,
    rest: &'a [Token],
) -> Result<(Expr, &'a [Token]), GrammarStop<'a, Symbol>>
    ensures { Gives (λ x. (expression_of x.0, x.1.now)) result
        (read number_of class_of [] (enclosed first (expression source.entry.text.now source.entry.limit depth) last)
        rest.now) }
{
    let (_, rest) = take(rest, first)?;
    let (value, rest) = read_expression(alloc, source, depth, rest)?;
    let (_, rest) = take(rest, last)?;
    Ok((value, rest))
}

/// place = NAME { step }
#[cycle(expressions)]
#[tactic(auto, using(crate::proofs::Lists::parts_are), unfolding(trick_body_symbols::specs::Expressions::place_body))]
fn read_place<'a>(
    alloc: Global,
    source: Source,
    depth: usize,
    rest: &'a [Token],
) -> Result<(Path, &'a [Token]), GrammarStop<'a, Symbol>>
    ensures { Gives (λ x. (path_of x.0, x.1.now)) result
        (read number_of class_of [] (place source.entry.text.now source.entry.limit depth) rest.now) }
{
    let (name, rest) = take_one_of(rest, &NAMES)?;
    let (parts, rest) = read_steps(alloc, source, depth, rest)?;
    let path = Path {
        line: name.line,
        name: name_of(alloc, source.text, name)?,
        parts,
    };
    Ok((path, rest))
}

/// { step }
#[cycle(expressions)]
pub fn read_steps<'a>(
    alloc: Global,
    source: Source,
    depth: usize,
    rest: &'a [Token],
) -> Result<(Vec<Part>, &'a [Token]), GrammarStop<'a, Symbol>>
    ensures { Gives (λ x. (map step_of x.0.items, x.1.now)) result
        (read number_of class_of [] (repetition source.entry.limit
        (step source.entry.text.now source.entry.limit depth)) rest.now) }
{
    read_more_steps(alloc, source, depth, (Vec::new(alloc), source.limit), rest)
}

/// step { step }
pub fn read_some_steps<'a>(
    alloc: Global,
    source: Source,
    depth: usize,
    rest: &'a [Token],
) -> Result<(Vec<Part>, &'a [Token]), GrammarStop<'a, Symbol>>
    ensures { Gives (λ x. (map step_of x.0.items, x.1.now)) result
        (read number_of class_of [] (some_steps source.entry.text.now source.entry.limit depth) rest.now) }
{
    let mut found = Vec::new(alloc);
    let (part, rest) = read_step(alloc, source, depth, rest)?;
    found.push(part)?;
    read_more_steps(
        alloc,
        source,
        depth,
        (found, source.limit.saturating_sub(1)),
        rest,
    )
}

/// { step } after those that were found, so many more at most
#[cycle(expressions)]
fn read_more_steps<'a>(
    alloc: Global,
    source: Source,
    depth: usize,
    so_far: (Vec<Part>, usize),
    rest: &'a [Token],
) -> Result<(Vec<Part>, &'a [Token]), GrammarStop<'a, Symbol>>
    ensures { Gives (λ x. (map step_of x.0.items, x.1.now)) result
        (prefixed (map step_of so_far.0.items)
        (read number_of class_of [] (repetition so_far.1 (step source.entry.text.now source.entry.limit depth))
        rest.now)) }
{
    let (mut found, mut left) = so_far;
    let mut rest = rest;
    while next_is_one_of(rest, &[Symbol::Dot, Symbol::OpenBracket]) {
        if left == 0 {
            return Err(GrammarStop::At(Refusal::TooLong, rest));
        }
        let (part, after) = read_step(alloc, source, depth, rest)?;
        found.push(part)?;
        rest = after;
        left -= 1;
    }
    Ok((found, rest))
}

/// step = "." NAME | "[" expression "]"
#[cycle(expressions)]
#[tactic(auto, unfolding(trick_body_symbols::specs::Expressions::step_body))]
fn read_step<'a>(
    alloc: Global,
    source: Source,
    depth: usize,
    rest: &'a [Token],
) -> Result<(Part, &'a [Token]), GrammarStop<'a, Symbol>>
    ensures { Gives (λ x. (step_of x.0, x.1.now)) result
        (read number_of class_of [] (step source.entry.text.now source.entry.limit depth) rest.now) }
{
    if next_is(rest, Symbol::Dot) {
        return read_member(alloc, source, rest);
    }
    let (at, rest) = read_nested(alloc, source, depth, Nested::Indexed, rest)?;
    Ok((Part::Index(at), rest))
}

/// "." NAME
fn read_member<'a>(
    alloc: Global,
    source: Source,
    rest: &'a [Token],
) -> Result<(Part, &'a [Token]), GrammarStop<'a, Symbol>>
    ensures { Gives (λ x. (step_of x.0, x.1.now)) result
        (read number_of class_of [] (member_step source.entry.text.now source.entry.limit) rest.now) }
{
    let (_, rest) = take(rest, Symbol::Dot)?;
    let (name, rest) = take_one_of(rest, &NAMES)?;
    Ok((
        Part::Member {
            line: name.line,
            name: name_of(alloc, source.text, name)?,
        },
        rest,
    ))
}
