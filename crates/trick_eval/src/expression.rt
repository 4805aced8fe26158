ghost use Rattle.std.specs.Prelude.{◌≡◌, ◌+◌, ◌-◌, ◌*◌, ◌^◌, ◌<◌, IsTrue};
ghost use Rattle.trick_eval.specs.Evaluation.{seen};
ghost use Rattle.trick_lang.specs.Numbers.{applied, compared, joined, prefixed, shift_count};
ghost use Rattle.trick_lang.specs.TreeOf.{choices_of_list, links_of_list, spot_of, term_of};
ghost use Rattle.trick_lang.specs.Passes.{choice_passes, term_passes, link_passes, place_passes};
ghost use Rattle.trick_lang.specs.Valid.{span_test};
ghost use Rattle.trick_lang.specs.Value.{cell_of, chosen, linked, origin, stepped, value};

use crate::working::Working;
use trick_lang::{Arithmetic, Choice, Comparison, Expr, FaultKind, Link, Operator, Place, Prefix};

fn shift(number: i64) -> u32
    ensures { result ≡ shift_count number }
{
    number.rem_euclid(64) as u32
}

/// What an arithmetic operator gives: `/` and `%` by 0 are faults.
pub fn apply(operator: Arithmetic, x: i64, y: i64) -> Result<i64, FaultKind>
    ensures { result ≡ applied operator x y }
{
    match operator {
        Arithmetic::Times => Ok(x.wrapping_mul(y)),
        Arithmetic::Divide => {
            if y == 0 {
                Err(FaultKind::DivideByZero)
            } else {
                Ok(x.wrapping_div(y))
            }
        }
        Arithmetic::Remainder => {
            if y == 0 {
                Err(FaultKind::DivideByZero)
            } else {
                Ok(x.wrapping_rem(y))
            }
        }
        Arithmetic::Plus => Ok(x.wrapping_add(y)),
        Arithmetic::Minus => Ok(x.wrapping_sub(y)),
        Arithmetic::ShiftLeft => Ok(x << shift(y)),
        Arithmetic::ShiftRight => Ok(x >> shift(y)),
        Arithmetic::BitAnd => Ok(x & y),
        Arithmetic::BitXor => Ok(x ^ y),
        Arithmetic::BitOr => Ok(x | y),
    }
}

/// Whether a comparison holds.
pub fn compare(comparison: Comparison, x: i64, y: i64) -> bool
    ensures { result ≡ compared comparison x y }
{
    match comparison {
        Comparison::Less => x < y,
        Comparison::AtMost => x <= y,
        Comparison::Greater => x > y,
        Comparison::AtLeast => x >= y,
        Comparison::Equal => x == y,
        Comparison::NotEqual => x != y,
    }
}

/// What a prefix operator gives.
pub fn prefix(operator: Prefix, x: i64) -> i64
    ensures { result ≡ prefixed operator x }
{
    match operator {
        Prefix::Negate => x.wrapping_neg(),
        Prefix::Keep => x,
        Prefix::Not => i64::from(x == 0),
        Prefix::Complement => !x,
    }
}

/// The value of an expression.
#[cycle(value)]
pub fn value_of(
    expression: &Expr,
    base: u32,
    memory: &[i64],
    working: &Working,
) -> Result<i64, FaultKind>
    requires { IsTrue (term_passes span_test (term_of expression.now)) }
    ensures { result ≡ value (term_of expression.now) (seen base memory.now working.now) }
{
    match expression {
        Expr::Number(number) => Ok(*number),
        Expr::Local(slot) => Ok(working.local(*slot)),
        Expr::Cell(place) => {
            let cell = find(place, base, memory, working)?;
            Ok(working.cell(memory, cell))
        }
        Expr::Prefixed(operator, operand) => {
            let x = value_of(operand, base, memory, working)?;
            Ok(prefix(*operator, x))
        }
        Expr::Chain(first, links) => {
            let x = value_of(first, base, memory, working)?;
            chain(x, links, base, memory, working)
        }
        Expr::Choose(choices, last) => choose(choices, last, base, memory, working),
    }
}

// The value of a chain whose first operand has this one.
#[cycle(value)]
fn chain(
    first: i64,
    links: &[Link],
    base: u32,
    memory: &[i64],
    working: &Working,
) -> Result<i64, FaultKind>
    requires { IsTrue (link_passes span_test (links_of_list links.now)) }
    ensures { result ≡ linked (links_of_list links.now) first (seen base memory.now working.now) }
{
    let mut x = first;
    for link in links {
        x = join(link.operator, x, &link.operand, base, memory, working)?;
    }
    Ok(x)
}

// What an operator gives of a number and an operand, which it may leave aside.
#[cycle(value)]
fn join(
    operator: Operator,
    x: i64,
    operand: &Expr,
    base: u32,
    memory: &[i64],
    working: &Working,
) -> Result<i64, FaultKind>
    requires { IsTrue (term_passes span_test (term_of operand.now)) }
    ensures { result ≡ joined operator x
        (value (term_of operand.now) (seen base memory.now working.now)) }
{
    match operator {
        Operator::Arithmetic(arithmetic) => {
            let y = value_of(operand, base, memory, working)?;
            apply(arithmetic, x, y)
        }
        Operator::Comparison(comparison) => {
            let y = value_of(operand, base, memory, working)?;
            Ok(i64::from(compare(comparison, x, y)))
        }
        Operator::And => {
            if x == 0 {
                return Ok(0);
            }
            let y = value_of(operand, base, memory, working)?;
            Ok(i64::from(y != 0))
        }
        Operator::Or => {
            if x != 0 {
                return Ok(1);
            }
            let y = value_of(operand, base, memory, working)?;
            Ok(i64::from(y != 0))
        }
    }
}

// The value of a `?:` chain.
#[cycle(value)]
fn choose(
    choices: &[Choice],
    last: &Expr,
    base: u32,
    memory: &[i64],
    working: &Working,
) -> Result<i64, FaultKind>
    requires { IsTrue (choice_passes span_test (choices_of_list choices.now (term_of last.now))) }
    ensures { result ≡ chosen (choices_of_list choices.now (term_of last.now))
        (seen base memory.now working.now) }
{
    for choice in choices {
        if value_of(&choice.test, base, memory, working)? != 0 {
            return value_of(&choice.value, base, memory, working);
        }
    }
    value_of(last, base, memory, working)
}

// The cell that an index leads to.
fn step(length: u32, stride: u32, at: usize, number: i64) -> Result<usize, FaultKind>
    requires { at + (length - 1) * stride < 2 ^ 64 }
    ensures { result ≡ stepped length stride at number }
{
    if number < 0 {
        return Err(FaultKind::IndexOutOfRange);
    }
    if number as usize >= length as usize {
        return Err(FaultKind::IndexOutOfRange);
    }
    Ok(at + number as usize * stride as usize)
}

fn first_cell(own: bool, base: u32, first: u32, offset: u32) -> usize
    ensures is { result ≡ origin own base + first + offset }
    ensures small { result < 2 ^ 32 + first + offset }
{
    let origin = if own { base as usize } else { 0 };
    origin + first as usize + offset as usize
}

/// The cell of a place.
#[cycle(value)]
pub fn find(place: &Place, base: u32, memory: &[i64], working: &Working) -> Result<usize, FaultKind>
    requires { IsTrue (place_passes span_test (spot_of place.now)) }
    ensures { result ≡ cell_of (spot_of place.now) (seen base memory.now working.now) }
{
    // The span is below 2^32.
    let _span = place.span;
    let mut at = first_cell(place.own, base, place.first, place.offset);
    for index in &place.indexes {
        let number = value_of(&index.at, base, memory, working)?;
        at = step(index.length, index.stride, at, number)?;
    }
    Ok(at)
}
