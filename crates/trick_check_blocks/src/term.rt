ghost use Rattle.std.specs.Prelude.{◌≡◌, ◌∷◌, [], IfOk, OnOk, Some, pos};
ghost use Rattle.trick_check_blocks.specs.Held.{goal_held};
ghost use Rattle.trick_check_blocks.specs.Places.{followed, literal_count, scalar_there};
ghost use Rattle.trick_check_blocks.specs.Room.{Fits, IsLaid};
ghost use Rattle.trick_check_blocks.specs.Terms.{added_steps, choice_terms, goal_term, link_terms, path_goal, place_goal, steps, term};
ghost use Rattle.trick_lang.specs.Syntax as text;
ghost use Rattle.trick_lang.specs.Tree as codes;
ghost use Rattle.trick_lang.specs.TreeOf as tree;
ghost use Rattle.trick_lang.specs.Wrap.{wrap};
ghost use Rattle.trick_lang.specs.declared.scalar.Scalar.TheVariants.{Long};

use crate::path::{computed_array, follow, literal, literals, place_at, step};
use crate::scope::ClassScope;
use crate::spot::{Spot, scalar};
use crate::start::{Local, Meaning, stands_for};
use std::alloc::{AllocError, Global};
use trick_check_names::Names;
use trick_lang::{Choice, Expr, Index, Link, Place, Prefix, Scalar, syntax};

/// What a path stands for.
#[derive(Drop)]
pub enum Reached {
    Local(Local),
    /// The value of an enum item.
    Number(i64),
    /// A number in the memory.
    Place(Place),
    Nothing,
}

// A literal, wrapped to 64 bits.
fn number(n: u64) -> i64
    ensures { result ≡ wrap Long (pos n) }
{
    trick_lang::wrap(Scalar::Long, n as i128)
}

fn named(reached: Reached) -> Expr
    ensures { tree.term_of result ≡ goal_term (goal_held reached) }
{
    match reached {
        Reached::Local(local) => Expr::Local(local.slot),
        Reached::Number(value) => Expr::Number(value),
        Reached::Place(place) => Expr::Cell(place),
        Reached::Nothing => Expr::Number(0),
    }
}

fn prefixed(alloc: Global, prefix: Prefix, inside: Expr) -> Result<Expr, AllocError>
    ensures { IfOk result (λ made. tree.term_of made ≡ codes.Prefixed prefix (tree.term_of inside)) }
{
    Ok(Expr::Prefixed(prefix, Box::new(alloc, inside)?))
}

fn chain(alloc: Global, first: Expr, links: Vec<Link>) -> Result<Expr, AllocError>
    ensures { IfOk result (λ made. tree.term_of made
        ≡ codes.Chain (tree.term_of first) (tree.links_of_list links.items)) }
{
    Ok(Expr::Chain(Box::new(alloc, first)?, links))
}

fn choose(alloc: Global, choices: Vec<Choice>, last: Expr) -> Result<Expr, AllocError>
    ensures { IfOk result (λ made. tree.term_of made
        ≡ codes.Choose (tree.choices_of_list choices.items (tree.term_of last))) }
{
    Ok(Expr::Choose(choices, Box::new(alloc, last)?))
}

/// What an expression becomes. Each level of the text's nesting, of which there are at most 64, is
/// three calls deep.
#[cycle(terms)]
pub fn resolve_expression(
    alloc: Global,
    e: &syntax::Expr,
    scope: &ClassScope,
    locals: &Names<Local>,
) -> Result<Expr, AllocError>
    requires laid { IsLaid scope.now }
    ensures { IfOk result (λ made. tree.term_of made ≡ term (text.expression_of e.now) scope.now locals.now) }
{
    match e {
        syntax::Expr::Whole { line: _, number: n } => Ok(Expr::Number(number(*n))),
        syntax::Expr::Truth { line: _, value } => Ok(Expr::Number(i64::from(*value))),
        syntax::Expr::Named(path) => {
            let reached = resolve_path(alloc, path, scope, locals)?;
            Ok(named(reached))
        }
        syntax::Expr::Prefixed(prefix, operand) => {
            let inside = resolve_expression(alloc, operand, scope, locals)?;
            prefixed(alloc, *prefix, inside)
        }
        syntax::Expr::Chain(first, links) => {
            let begin = resolve_expression(alloc, first, scope, locals)?;
            let more = resolve_links(alloc, links, scope, locals)?;
            chain(alloc, begin, more)
        }
        syntax::Expr::Choose(choices, last) => {
            let tests = resolve_choices(alloc, choices, scope, locals)?;
            let end = resolve_expression(alloc, last, scope, locals)?;
            choose(alloc, tests, end)
        }
    }
}

#[cycle(terms)]
fn resolve_links(
    alloc: Global,
    links: &[syntax::Link],
    scope: &ClassScope,
    locals: &Names<Local>,
) -> Result<Vec<Link>, AllocError>
    requires laid { IsLaid scope.now }
    ensures { IfOk result (λ made. tree.links_of_list made.items
        ≡ link_terms (text.links_of_list links.now) scope.now locals.now) }
{
    let mut out = Vec::new(alloc);
    for link in links {
        let operand = resolve_expression(alloc, &link.operand, scope, locals)?;
        out.push(Link {
            operator: link.operator,
            operand,
        })?;
    }
    Ok(out)
}

#[cycle(terms)]
fn resolve_choices(
    alloc: Global,
    choices: &[syntax::Choice],
    scope: &ClassScope,
    locals: &Names<Local>,
) -> Result<Vec<Choice>, AllocError>
    requires laid { IsLaid scope.now }
    ensures { IfOk result (λ made. (last : _) → tree.choices_of_list made.items (term last scope.now locals.now)
        ≡ choice_terms (text.choices_of_list choices.now last) scope.now locals.now) }
{
    let mut out = Vec::new(alloc);
    for choice in choices {
        let test = resolve_expression(alloc, &choice.test, scope, locals)?;
        let value = resolve_expression(alloc, &choice.value, scope, locals)?;
        out.push(Choice { test, value })?;
    }
    Ok(out)
}

/// What a path stands for.
#[cycle(terms)]
pub fn resolve_path(
    alloc: Global,
    path: &syntax::Path,
    scope: &ClassScope,
    locals: &Names<Local>,
) -> Result<Reached, AllocError>
    requires laid { IsLaid scope.now }
    ensures { IfOk result (λ made. goal_held made ≡ path_goal (text.path_of path.now) scope.now locals.now) }
{
    match stands_for(&path.name, scope, locals) {
        Meaning::Local(local) => Ok(Reached::Local(local)),
        Meaning::Number(value) => Ok(Reached::Number(i64::from(value))),
        Meaning::Stands(from) => resolve_place(alloc, path.parts.as_slice(), from, scope, locals),
        Meaning::Nothing => Ok(Reached::Nothing),
    }
}

#[cycle(terms)]
fn resolve_place(
    alloc: Global,
    parts: &[syntax::Part],
    from: Spot,
    scope: &ClassScope,
    locals: &Names<Local>,
) -> Result<Reached, AllocError>
    requires laid { IsLaid scope.now }
    requires fits { Fits scope.now (Some from) }
    ensures { IfOk result (λ made. goal_held made ≡ place_goal
        (scalar_there (followed (text.parts_of_list parts.now) scope.now (Some from)))
        (literal_count (text.parts_of_list parts.now))
        (steps (text.parts_of_list parts.now) scope.now locals.now (Some from))) }
{
    match scalar(follow(parts, scope, from)) {
        None => Ok(Reached::Nothing),
        Some(at) => {
            let indexes = resolve_steps(alloc, parts, from, scope, locals)?;
            Ok(Reached::Place(place_at(at, literals(parts), indexes)))
        }
    }
}

// The computed indexes of a path.
#[cycle(terms)]
fn resolve_steps(
    alloc: Global,
    parts: &[syntax::Part],
    from: Spot,
    scope: &ClassScope,
    locals: &Names<Local>,
) -> Result<Vec<Index>, AllocError>
    requires laid { IsLaid scope.now }
    requires fits { Fits scope.now (Some from) }
    ensures { IfOk result (λ made. tree.steps_of_list made.items
        ≡ steps (text.parts_of_list parts.now) scope.now locals.now (Some from)) }
{
    let mut out = Vec::new(alloc);
    let mut at = Some(from);
    for part in parts {
        resolve_step(alloc, part, at, scope, locals, &mut out)?;
        at = step(part, scope, at);
    }
    Ok(out)
}

// Adds the index of one part, where it is computed.
#[cycle(terms)]
fn resolve_step(
    alloc: Global,
    part: &syntax::Part,
    at: Option<Spot>,
    scope: &ClassScope,
    locals: &Names<Local>,
    out: &mut Vec<Index>,
) -> Result<(), AllocError>
    requires laid { IsLaid scope.now }
    ensures { OnOk result (added_steps (tree.steps_of_list out.old.items)
        (steps (text.parts_of_list (part.now ∷ [])) scope.now locals.now at) ≡ tree.steps_of_list out.new.items) }
{
    match part {
        syntax::Part::Member { line: _, name: _ } => Ok(()),
        syntax::Part::Index(e) => match computed_array(literal(e), at) {
            None => Ok(()),
            Some(found) => {
                let x = resolve_expression(alloc, e, scope, locals)?;
                out.push(Index {
                    length: found.dim.length,
                    stride: found.dim.stride,
                    at: x,
                })?;
                Ok(())
            }
        },
    }
}
