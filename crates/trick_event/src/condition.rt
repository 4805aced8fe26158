//! What conditions say.

ghost use Rattle.std.specs.Prelude.{◌≡◌, IsTrue, Ok, false, length};
ghost use Rattle.trick_event.specs.Condition.{sight_of};
ghost use Rattle.trick_lang.specs.Numbers.{applied, joined};
ghost use Rattle.trick_lang.specs.Tree.{Cell as TermCell};
ghost use Rattle.trick_lang.specs.TreeOf.{choices_of_list, links_of_list, spot_of, term_of};
ghost use Rattle.trick_lang.specs.Value.{chosen, linked, value};
ghost use Rattle.trick_model.specs.Condition.{are_all_conditions, are_conditions, condition_of, divides, is_condition, is_condition_of, is_plain_place, is_safe};
ghost use Rattle.trick_model.specs.Events.{holds as holds_in};

use trick_eval::{apply, compare, prefix};
use trick_lang::{Arithmetic, Cell, Cells, Choice, Expr, Link, Operator, Place};

// What an arithmetic operator that cannot fault gives.
fn applied(operator: Arithmetic, x: i64, y: i64) -> i64
    requires { divides operator ≡ false }
    ensures { applied operator x y ≡ Ok result }
{
    match apply(operator, x, y) {
        Ok(number) => number,
        Err(_) => 0,
    }
}

// The number of a place with literal indexes alone.
fn number_at<M: Cells>(place: &Place, memory: &M) -> i64
    requires { IsTrue (is_plain_place (length (M.numbers memory.now)) (spot_of place.now)) }
    ensures { value (TermCell (spot_of place.now)) (sight_of (M.numbers memory.now)) ≡ Ok result }
{
    // The place is one of the cells, whose count fits.
    let _cells = memory.len();
    memory.get(Cell(place.first + place.offset))
}

// What an operator that cannot fault gives of a number and an operand, which it may leave aside.
#[cycle(condition)]
fn join<M: Cells>(operator: Operator, x: i64, operand: &Expr, memory: &M) -> i64
    requires safe { IsTrue (is_safe operator) }
    requires condition { IsTrue (is_condition (length (M.numbers memory.now)) (term_of operand.now)) }
    ensures { joined operator x (value (term_of operand.now) (sight_of (M.numbers memory.now))) ≡ Ok result }
{
    match operator {
        Operator::Arithmetic(arithmetic) => applied(arithmetic, x, number_of(operand, memory)),
        Operator::Comparison(comparison) => {
            i64::from(compare(comparison, x, number_of(operand, memory)))
        }
        Operator::And => {
            if x == 0 {
                return 0;
            }
            i64::from(number_of(operand, memory) != 0)
        }
        Operator::Or => {
            if x != 0 {
                return 1;
            }
            i64::from(number_of(operand, memory) != 0)
        }
    }
}

// The value of a chain whose first operand has this one.
#[cycle(condition)]
fn chain<M: Cells>(first: i64, links: &[Link], memory: &M) -> i64
    requires { IsTrue (are_conditions (length (M.numbers memory.now)) (links_of_list links.now)) }
    ensures { linked (links_of_list links.now) first (sight_of (M.numbers memory.now)) ≡ Ok result }
{
    let mut x = first;
    for link in links {
        x = join(link.operator, x, &link.operand, memory);
    }
    x
}

// The value of a `?:` chain.
#[cycle(condition)]
fn choose<M: Cells>(choices: &[Choice], last: &Expr, memory: &M) -> i64
    requires { IsTrue (are_all_conditions (length (M.numbers memory.now))
        (choices_of_list choices.now (term_of last.now))) }
    ensures { chosen (choices_of_list choices.now (term_of last.now)) (sight_of (M.numbers memory.now)) ≡ Ok result }
{
    for choice in choices {
        if number_of(&choice.test, memory) != 0 {
            return number_of(&choice.value, memory);
        }
    }
    number_of(last, memory)
}

// The value of a condition. Each level of the text's nesting, of which there are at most 64, is at
// most three calls deep.
#[cycle(condition)]
fn number_of<M: Cells>(condition: &Expr, memory: &M) -> i64
    requires { IsTrue (is_condition (length (M.numbers memory.now)) (term_of condition.now)) }
    ensures { value (term_of condition.now) (sight_of (M.numbers memory.now)) ≡ Ok result }
{
    match condition {
        Expr::Number(number) => *number,
        // A condition has no local variables.
        Expr::Local(_) => 0,
        Expr::Cell(place) => number_at(place, memory),
        Expr::Prefixed(operator, operand) => prefix(*operator, number_of(operand, memory)),
        Expr::Chain(first, links) => {
            let x = number_of(first, memory);
            chain(x, links, memory)
        }
        Expr::Choose(choices, last) => choose(choices, last, memory),
    }
}

/// Whether a condition is there and is not 0.
pub(crate) fn holds<M: Cells>(condition: &Option<Expr>, memory: &M) -> bool
    requires { IsTrue (is_condition_of (length (M.numbers memory.now)) condition.now) }
    ensures { result ≡ holds_in (condition_of condition.now) (M.numbers memory.now) }
{
    match condition {
        Some(condition) => number_of(condition, memory) != 0,
        None => false,
    }
}
