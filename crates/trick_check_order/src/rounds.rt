//! Methods in their one order, by rounds.

ghost use Rattle.std.specs.Prelude.{◌≡◌, ◌<◌, ◌++◌, ◌∷◌, [], All, IfOk, OnOk, length, replicate, set, slice_index_or, ℕ};
ghost use Rattle.trick_check_order.specs.Calls.{AreCallees, IsOrderOf, order_of};
ghost use Rattle.trick_check_order.specs.Rounds.{AreRounds, in_round, round_behind};

use crate::reach::callees;
use std::alloc::{AllocError, Global};
use trick_base::Items;

// The first round after those of these methods.
fn round_behind(rounds: &[usize], methods: &[usize]) -> usize
    requires there { All (λ m. m < length rounds.now) methods.now }
    requires low { All (λ m. slice_index_or rounds.now m 0 < length rounds.now) methods.now }
    ensures { result ≡ round_behind rounds.now methods.now }
{
    let mut round = 0;
    for method in methods {
        round = round.max(rounds[*method] + 1);
    }
    round
}

// The round of each method, where this is an order of all.
fn rounds_of(
    alloc: Global,
    calls: &[Items<usize>],
    order: &[usize],
) -> Result<Vec<usize>, AllocError>
    requires callees { AreCallees calls.now }
    requires order { IsOrderOf calls.now order.now }
    ensures { IfOk result (λ rounds. AreRounds calls.now rounds.items) }
{
    let mut rounds = vec![in alloc; 0; calls.len()]?;
    for method in order {
        let round = round_behind(&rounds, callees(calls, *method));
        rounds[*method] = round;
    }
    Ok(rounds)
}

// So many rounds without methods.
fn empty_rounds(alloc: Global, count: usize) -> Result<Vec<Items<usize>>, AllocError>
    ensures { IfOk result (λ found. found.items ≡ replicate count []) }
{
    let mut found = Vec::new(alloc);
    for _round in 0..count {
        found.push(Items::new(alloc))?;
    }
    Ok(found)
}

// Puts a method after those of its round.
fn put(method: usize, round: usize, found: &mut Vec<Items<usize>>) -> Result<(), AllocError>
    requires here { round < length found.old.items }
    ensures { OnOk result (found.new.items
        ≡ set found.old.items round (slice_index_or found.old.items round [] ++ method ∷ [])) }
{
    found[round].push(method)?;
    Ok(())
}

// The methods of each round, in the order of their numbers.
fn methods_of(alloc: Global, rounds: &[usize]) -> Result<Vec<Items<usize>>, AllocError>
    requires low { All (λ round. round < length rounds.now) rounds.now }
    ensures many { IfOk result (λ found. length found.items ≡ length rounds.now) }
    ensures methods { IfOk result (λ found. (round : ℕ) →
        slice_index_or found.items round [] ≡ in_round rounds.now (length rounds.now) round) }
{
    let mut found = empty_rounds(alloc, rounds.len())?;
    for method in 0..rounds.len() {
        put(method, rounds[method], &mut found)?;
    }
    Ok(found)
}

/// All methods in their one order, from any order of them.
pub fn by_rounds(
    alloc: Global,
    calls: &[Items<usize>],
    order: &[usize],
) -> Result<Vec<usize>, AllocError>
    requires callees { AreCallees calls.now }
    requires order { IsOrderOf calls.now order.now }
    ensures order { IfOk result (λ found. found.items ≡ order_of calls.now) }
    ensures ordered { IfOk result (λ found. IsOrderOf calls.now found.items) }
{
    let rounds = rounds_of(alloc, calls, order)?;
    let methods = methods_of(alloc, &rounds)?;
    let mut found = Vec::new(alloc);
    for round in &methods {
        found.extend_from_slice(round.as_slice())?;
    }
    Ok(found)
}
