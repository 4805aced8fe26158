//! Steps of expressions and places.

ghost use Rattle.std.specs.Prelude.{◌≡◌};
ghost use Rattle.trick_base.specs.Capped.{capped};
ghost use Rattle.trick_lang.specs.Count.{change_steps, choice_steps, first_steps, index_steps, link_steps, term_steps};
ghost use Rattle.trick_lang.specs.TreeOf.{change_of, choices_of_list, first_value_of, links_of_list, spot_of, term_of};

use trick_lang::{Change, Choice, Expr, Link, Place};

/// The steps of an expression. It goes as deep as the text nests.
#[cycle(steps)]
pub fn expression_steps(expression: &Expr) -> u64
    ensures { result ≡ capped (term_steps (term_of expression.now)) }
{
    match expression {
        Expr::Number(_) | Expr::Local(_) => 1,
        Expr::Cell(place) => index_steps(place).saturating_add(1),
        Expr::Prefixed(_, operand) => expression_steps(operand).saturating_add(1),
        Expr::Chain(first, links) => {
            let steps = expression_steps(first);
            steps.saturating_add(link_steps(links))
        }
        Expr::Choose(choices, last) => choice_steps(choices, last),
    }
}

#[cycle(steps)]
fn link_steps(links: &[Link]) -> u64
    ensures { result ≡ capped (link_steps (links_of_list links.now)) }
{
    let mut total: u64 = 0;
    for link in links {
        let steps = expression_steps(&link.operand).saturating_add(1);
        total = total.saturating_add(steps);
    }
    total
}

#[cycle(steps)]
fn choice_steps(choices: &[Choice], last: &Expr) -> u64
    ensures { result ≡ capped (choice_steps (choices_of_list choices.now (term_of last.now))) }
{
    let mut total: u64 = 0;
    for choice in choices {
        let test = expression_steps(&choice.test).saturating_add(1);
        let value = expression_steps(&choice.value);
        total = total.saturating_add(test).saturating_add(value);
    }
    total.saturating_add(expression_steps(last))
}

/// The steps of the indexes of a place.
#[cycle(steps)]
pub fn index_steps(place: &Place) -> u64
    ensures { result ≡ capped (index_steps (spot_of place.now)) }
{
    let mut total = place.literals;
    for index in &place.indexes {
        let steps = expression_steps(&index.at);
        total = total.saturating_add(steps);
    }
    total
}

/// The steps of the right side of an assignment.
pub fn change_steps(change: &Change) -> u64
    ensures { result ≡ capped (change_steps (change_of change.now)) }
{
    match change {
        Change::Set(value) => expression_steps(value),
        Change::Update(_, value) => expression_steps(value),
        Change::Increase => 0,
        Change::Decrease => 0,
    }
}

/// The steps of the first value of a local variable.
pub fn first_steps(value: &Option<Expr>) -> u64
    ensures { result ≡ capped (first_steps (first_value_of value.now)) }
{
    match value {
        None => 0,
        Some(value) => expression_steps(value),
    }
}
