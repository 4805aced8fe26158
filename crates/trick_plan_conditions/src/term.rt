//! Conditions with their names resolved.

ghost use Rattle.std.specs.Prelude.{◌≡◌, pos};
ghost use Rattle.trick_plan_conditions.specs.Held.{ChecksParts, Resolves, ResolvesChoices, ResolvesLinks, ResolvesPlace, known_by};
ghost use Rattle.trick_lang.specs.Syntax.{expression_of, links_of_list, parts_of_list, path_of};
ghost use Rattle.trick_lang.specs.Wrap.{wrap};
ghost use Rattle.trick_lang.specs.declared.scalar.Scalar.TheVariants.{Long};

use crate::ConditionFault;
use crate::place::{Referent, literals, stands_for};
use std::alloc::Global;
use trick_check_names::Names;
use trick_lang::{Cell, Choice, Expr, Link, Place, Scalar, syntax};

// A literal, wrapped to 64 bits.
fn number(n: u64) -> i64
    ensures { result ≡ wrap Long (pos n) }
{
    trick_lang::wrap(Scalar::Long, n as i128)
}

// What a place becomes.
fn resolve_place(
    alloc: Global,
    path: &syntax::Path,
    items: &Names<i32>,
    cells: &Names<Cell>,
) -> Result<Expr, ConditionFault>
    ensures { ResolvesPlace (known_by items.now cells.now) path.now.name (parts_of_list path.now.parts.items) result }
{
    match stands_for(alloc, path, items, cells)? {
        Referent::Item(value) => Ok(Expr::Number(i64::from(value))),
        Referent::Cell(cell) => Ok(Expr::Cell(Place {
            own: false,
            first: cell.0,
            span: 1,
            offset: 0,
            literals: literals(path.parts.as_slice()),
            indexes: Vec::new(alloc),
        })),
        Referent::Computed => Ok(Expr::Number(0)),
        Referent::Nothing => Err(ConditionFault::UnknownName),
    }
}

/// A condition with its names resolved, by the values of enum items and the cells of full names; of an
/// item and a cell of one name the item counts. It is refused where a place is neither, in an index
/// too; a place with an index that is no literal is not looked up, and becomes 0. Each level of the
/// text's nesting, of which there are at most 64, is two calls deep.
#[cycle(terms)]
pub fn resolve(
    alloc: Global,
    e: &syntax::Expr,
    items: &Names<i32>,
    cells: &Names<Cell>,
) -> Result<Expr, ConditionFault>
    ensures { Resolves (known_by items.now cells.now) (expression_of e.now) result }
{
    match e {
        syntax::Expr::Whole { line: _, number: n } => Ok(Expr::Number(number(*n))),
        syntax::Expr::Truth { line: _, value } => Ok(Expr::Number(i64::from(*value))),
        syntax::Expr::Named(path) => {
            check_parts(alloc, path.parts.as_slice(), items, cells)?;
            resolve_place(alloc, path, items, cells)
        }
        syntax::Expr::Prefixed(prefix, operand) => {
            let inside = resolve(alloc, operand, items, cells)?;
            Ok(Expr::Prefixed(*prefix, Box::new(alloc, inside)?))
        }
        syntax::Expr::Chain(first, links) => {
            let begin = resolve(alloc, first, items, cells)?;
            let more = resolve_links(alloc, links, items, cells)?;
            Ok(Expr::Chain(Box::new(alloc, begin)?, more))
        }
        syntax::Expr::Choose(choices, last) => {
            let tests = resolve_choices(alloc, choices, items, cells)?;
            let end = resolve(alloc, last, items, cells)?;
            Ok(Expr::Choose(tests, Box::new(alloc, end)?))
        }
    }
}

#[cycle(terms)]
fn resolve_links(
    alloc: Global,
    links: &[syntax::Link],
    items: &Names<i32>,
    cells: &Names<Cell>,
) -> Result<Vec<Link>, ConditionFault>
    ensures { ResolvesLinks (known_by items.now cells.now) (links_of_list links.now) result }
{
    let mut out = Vec::new(alloc);
    for link in links {
        let operand = resolve(alloc, &link.operand, items, cells)?;
        out.push(Link {
            operator: link.operator,
            operand,
        })?;
    }
    Ok(out)
}

#[cycle(terms)]
fn resolve_choices(
    alloc: Global,
    choices: &[syntax::Choice],
    items: &Names<i32>,
    cells: &Names<Cell>,
) -> Result<Vec<Choice>, ConditionFault>
    ensures { ResolvesChoices (known_by items.now cells.now) choices.now result }
{
    let mut out = Vec::new(alloc);
    for choice in choices {
        let test = resolve(alloc, &choice.test, items, cells)?;
        let value = resolve(alloc, &choice.value, items, cells)?;
        out.push(Choice { test, value })?;
    }
    Ok(out)
}

// Looks up the names in the indexes of a place.
#[cycle(terms)]
fn check_parts(
    alloc: Global,
    parts: &[syntax::Part],
    items: &Names<i32>,
    cells: &Names<Cell>,
) -> Result<(), ConditionFault>
    ensures { ChecksParts (known_by items.now cells.now) (parts_of_list parts.now) result }
{
    for part in parts {
        if let syntax::Part::Index(e) = part {
            let _index = resolve(alloc, e, items, cells)?;
        }
    }
    Ok(())
}
