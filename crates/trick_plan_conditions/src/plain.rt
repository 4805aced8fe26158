//! Which conditions cannot fault.

ghost use Rattle.std.specs.Prelude.{◌≡◌, ◌&&◌, not};
ghost use Rattle.trick_plan_conditions.specs.Conditions.{are_plain_choices, are_plain_links, is_plain};
ghost use Rattle.trick_lang.specs.Syntax.{choices_of_list, expression_of, links_of_list};
ghost use Rattle.trick_lang.specs.SyntaxTree.{Expression};
ghost use Rattle.trick_model.specs.Condition.{divides, is_safe};

use crate::place::has_computed;
use trick_lang::syntax::{Choice, Expr, Link};
use trick_lang::{Arithmetic, Operator};

// Whether an operator is `/` or `%`.
fn divides(operator: Arithmetic) -> bool
    ensures { result ≡ divides operator }
{
    match operator {
        Arithmetic::Divide | Arithmetic::Remainder => true,
        _ => false,
    }
}

// Whether an operator cannot fault.
fn is_safe(operator: Operator) -> bool
    ensures { result ≡ is_safe operator }
{
    match operator {
        Operator::Arithmetic(arithmetic) => !divides(arithmetic),
        Operator::Comparison(_) => true,
        Operator::And => true,
        Operator::Or => true,
    }
}

/// Whether a condition has no `/`, no `%` and literal indexes alone, so that it cannot fault. Each
/// level of the text's nesting, of which there are at most 64, is two calls deep.
#[cycle(plain)]
pub fn is_plain(e: &Expr) -> bool
    ensures { result ≡ is_plain (expression_of e.now) }
{
    match e {
        Expr::Whole { line: _, number: _ } => true,
        Expr::Truth { line: _, value: _ } => true,
        Expr::Named(path) => !has_computed(path.parts.as_slice()),
        Expr::Prefixed(_, operand) => is_plain(operand),
        Expr::Chain(first, links) => is_plain(first) && are_plain_links(links),
        Expr::Choose(choices, last) => are_plain_choices(choices) && is_plain(last),
    }
}

#[cycle(plain)]
fn are_plain_links(links: &[Link]) -> bool
    ensures { result ≡ are_plain_links (links_of_list links.now) }
{
    for link in links {
        if !is_safe(link.operator) || !is_plain(&link.operand) {
            return false;
        }
    }
    true
}

#[cycle(plain)]
fn are_plain_choices(choices: &[Choice]) -> bool
    ensures { (last : Expression) → are_plain_choices (choices_of_list choices.now last) ≡ result && is_plain last }
{
    for choice in choices {
        if !is_plain(&choice.test) || !is_plain(&choice.value) {
            return false;
        }
    }
    true
}
