ghost use Rattle.std.specs.Prelude.{◌≡◌, ℕ, ◌<◌, ◌∷◌, [], false, true, length, slice_index_or, IfOk, IfSome, MatchOption, OnOk};
ghost use Rattle.trick_check_order.specs.Calls.{AreCallees, IsFirst, ReachesItself, callees, has};
ghost use Rattle.trick_check_order.specs.Reached.{Adds};

use crate::lower::{first_level, never_rises};
use crate::ranks::ranks;
use std::alloc::{AllocError, Global};
use trick_base::Items;

/// What a method calls.
pub fn callees(calls: &[Items<usize>], method: usize) -> &[usize]
    requires here { method < length calls.now }
    ensures { result.now ≡ callees calls.now method }
{
    calls[method].as_slice()
}

// Adds one that may have been seen.
fn add(callee: usize, seen: &mut Vec<bool>, queue: &mut Vec<usize>) -> Result<(), AllocError>
    requires below { callee < length seen.old.items }
    requires seen { (k : ℕ) → slice_index_or seen.old.items k false ≡ has queue.old.items k }
    ensures { OnOk result (Adds (callee ∷ []) seen.old.items queue.old.items seen.new.items queue.new.items) }
{
    if !seen[callee] {
        queue.push(callee)?;
        seen[callee] = true;
    }
    Ok(())
}

// Adds those that were not seen.
fn add_all(
    callees: &[usize],
    seen: &mut Vec<bool>,
    queue: &mut Vec<usize>,
) -> Result<(), AllocError>
    requires below { (k : ℕ) → has callees.now k ≡ true → k < length seen.old.items }
    requires seen { (k : ℕ) → slice_index_or seen.old.items k false ≡ has queue.old.items k }
    ensures { OnOk result (Adds callees.now seen.old.items queue.old.items seen.new.items queue.new.items) }
{
    for callee in callees {
        add(*callee, seen, queue)?;
    }
    Ok(())
}

// Whether a method reaches itself by calls.
fn reaches_itself(alloc: Global, calls: &[Items<usize>], method: usize) -> Result<bool, AllocError>
    requires callees { AreCallees calls.now }
    requires here { method < length calls.now }
    ensures yes { IfOk result (λ yes. yes ≡ true → ReachesItself calls.now method) }
    ensures no { IfOk result (λ yes. yes ≡ false → ReachesItself calls.now method → ⊥) }
{
    let mut seen = vec![in alloc; false; calls.len()]?;
    let mut queue = Vec::new(alloc);
    add_all(callees(calls, method), &mut seen, &mut queue)?;
    let mut head: usize = 0;
    while head < queue.len() {
        let next = queue[head];
        add_all(callees(calls, next), &mut seen, &mut queue)?;
        head += 1;
    }
    Ok(seen[method])
}

// The first method that reaches itself, where each is searched from anew up to that one.
fn first_of_all(alloc: Global, calls: &[Items<usize>]) -> Result<Option<usize>, AllocError>
    requires callees { AreCallees calls.now }
    ensures { IfOk result (λ found. MatchOption found
        ((a : ℕ) → a < length calls.now → ReachesItself calls.now a → ⊥)
        (λ a. IsFirst calls.now a)) }
{
    for method in 0..calls.len() {
        if reaches_itself(alloc, calls, method)? {
            return Ok(Some(method));
        }
    }
    Ok(None)
}

// The first method that reaches itself, where these ranks tell it.
fn first_by_ranks(
    alloc: Global,
    calls: &[Items<usize>],
    ranks: &[usize],
) -> Result<Option<usize>, AllocError>
    requires callees { AreCallees calls.now }
    ensures { IfOk result (λ found. IfSome found (λ a. IsFirst calls.now a)) }
{
    let method = first_level(calls, ranks);
    if method >= calls.len() || !never_rises(calls, ranks) {
        return Ok(None);
    }
    let told = reaches_itself(alloc, calls, method)?;
    Ok(if told { Some(method) } else { None })
}

/// The first method that reaches itself. Ranks from a search in depth tell it, and are tested, so that no
/// method is searched from but that one. Only ranks that fail the test would have each one searched from.
pub fn first_recursive(alloc: Global, calls: &[Items<usize>]) -> Result<Option<usize>, AllocError>
    requires callees { AreCallees calls.now }
    ensures { IfOk result (λ found. MatchOption found
        ((a : ℕ) → a < length calls.now → ReachesItself calls.now a → ⊥)
        (λ a. IsFirst calls.now a)) }
{
    let ranks = ranks(alloc, calls)?;
    match first_by_ranks(alloc, calls, &ranks)? {
        Some(method) => Ok(Some(method)),
        None => first_of_all(alloc, calls),
    }
}
