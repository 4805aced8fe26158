// Whether an expression reads a cell of a set.

ghost use Rattle.std.specs.Prelude.{◌≡◌, ◌-◌, ◌<◌, ◌^◌, [], ◌∷◌};
ghost use Rattle.trick_lang.specs.Access.{choice_reads, index_reads, link_reads, range_of, term_reads};
ghost use Rattle.trick_lang.specs.TreeOf.{choices_of_list, links_of_list, spot_of, term_of};
ghost use Rattle.trick_race.specs.Accesses.{has_some};

use crate::cell_set::CellSet;
use trick_lang::{Choice, Expr, Link, Place};

// Whether a cell that the place may stand for is in the set.
fn is_some_in(place: &Place, set: &CellSet) -> bool
    ensures { result ≡ has_some set.now (range_of (spot_of place.now) 0 ∷ []) }
{
    let first = place.first as usize;
    set.has_some(first, first + less_one(place.span))
}

fn less_one(span: u32) -> usize
    ensures is { result ≡ span - 1 }
    ensures small { result < 2 ^ 32 }
{
    if span == 0 { 0 } else { span as usize - 1 }
}

// It goes as deep as the text nests, which is at most 64 constructs.
#[cycle(reads)]
pub(crate) fn reads_some(expression: &Expr, set: &CellSet) -> bool
    ensures { result ≡ has_some set.now (term_reads (term_of expression.now) 0) }
{
    match expression {
        Expr::Number(_) | Expr::Local(_) => false,
        Expr::Cell(place) => {
            if is_some_in(place, set) {
                return true;
            }
            indexes_read_some(place, set)
        }
        Expr::Prefixed(_, operand) => reads_some(operand, set),
        Expr::Chain(first, links) => {
            if reads_some(first, set) {
                return true;
            }
            links_read_some(links, set)
        }
        Expr::Choose(choices, last) => choices_read_some(choices, last, set),
    }
}

#[cycle(reads)]
fn links_read_some(links: &[Link], set: &CellSet) -> bool
    ensures { result ≡ has_some set.now (link_reads (links_of_list links.now) 0) }
{
    for link in links {
        if reads_some(&link.operand, set) {
            return true;
        }
    }
    false
}

#[cycle(reads)]
fn choices_read_some(choices: &[Choice], last: &Expr, set: &CellSet) -> bool
    ensures { result ≡ has_some set.now (choice_reads (choices_of_list choices.now (term_of last.now)) 0) }
{
    for choice in choices {
        let tested = reads_some(&choice.test, set);
        if tested {
            return true;
        }
        let chosen = reads_some(&choice.value, set);
        if chosen {
            return true;
        }
    }
    reads_some(last, set)
}

#[cycle(reads)]
fn indexes_read_some(place: &Place, set: &CellSet) -> bool
    ensures { result ≡ has_some set.now (index_reads (spot_of place.now) 0) }
{
    for index in &place.indexes {
        if reads_some(&index.at, set) {
            return true;
        }
    }
    false
}
