//! Tests of ranks: which methods do not reach themselves, by ranks that calls do not raise.

ghost use Rattle.std.specs.Prelude.{◌≡◌, slice_index_or, true};
ghost use Rattle.trick_check_order.specs.Ranked.{FallsBefore, NeverRises, are_lower};

use crate::reach::callees;
use trick_base::Items;

// The rank of a method, and 0 of one that is not there.
fn rank_of(ranks: &[usize], method: usize) -> usize
    ensures { result ≡ slice_index_or ranks.now method 0 }
{
    if method < ranks.len() {
        ranks[method]
    } else {
        0
    }
}

// Whether all of these methods have ranks below a limit.
fn are_lower(ranks: &[usize], limit: usize, methods: &[usize]) -> bool
    ensures { result ≡ are_lower ranks.now limit methods.now }
{
    for method in methods {
        if rank_of(ranks, *method) >= limit {
            return false;
        }
    }
    true
}

/// The first method that calls one of no lower rank, or else how many methods there are.
pub fn first_level(calls: &[Items<usize>], ranks: &[usize]) -> usize
    ensures { FallsBefore calls.now ranks.now result }
{
    for method in 0..calls.len() {
        let rank = rank_of(ranks, method);
        if !are_lower(ranks, rank, callees(calls, method)) {
            return method;
        }
    }
    calls.len()
}

/// Whether no call leads to a higher rank.
pub fn never_rises(calls: &[Items<usize>], ranks: &[usize]) -> bool
    ensures { result ≡ true → NeverRises calls.now ranks.now }
{
    for method in 0..calls.len() {
        let Some(limit) = rank_of(ranks, method).checked_add(1) else {
            return false;
        };
        if !are_lower(ranks, limit, callees(calls, method)) {
            return false;
        }
    }
    true
}
