//! A count of turns behind a turn.
ghost use Rattle.std.specs.Prelude.{◌≡◌};
ghost use Rattle.trick_turn.specs.Passes.{IsPassOf, Rests, number_of};

use std::marker::Brand;
use std::sync::Wait;
use trick_turn::{Claim, Keeps, Nothing, Pass, TurnLock};

#[derive(Drop)]
struct Count {
    turns: u64,
}

impl Keeps for Count {
    ghost use Rattle.std.specs.Prelude.{◌≡◌, length};

    type Entry = u64;

    ghost stands = { λ c log. c.turns ≡ length log };

    ghost seat = { λ e. e };
}

/// What the second pass finds while the first has the turn, and whether it gets the turn once that is released.
fn tries(lock: &TurnLock<Count>, first: &mut Pass<Count>, second: &mut Pass<Count>) -> (u64, bool)
    requires first { IsPassOf lock.now first.old × Rests first.old }
    requires second { IsPassOf lock.now second.old × Rests second.old }
    ensures first { IsPassOf lock.now first.new × Rests first.new
        × (number_of first.new ≡ number_of first.old) }
    ensures second { IsPassOf lock.now second.new × Rests second.new
        × (number_of second.new ≡ number_of second.old) }
{
    let mut found = 0;
    match first.try_claim(lock) {
        Claim::Busy { found: _ } => {}
        Claim::Got(turn) => {
            match second.try_claim(lock) {
                Claim::Busy { found: holder } => found = holder,
                Claim::Got(other) => other.release::<Nothing>(),
            }
            turn.release::<Nothing>();
        }
    }
    match second.try_claim(lock) {
        Claim::Busy { found: _ } => (found, false),
        Claim::Got(turn) => {
            turn.release::<Nothing>();
            (found, true)
        }
    }
}

/// Counts one turn, and answers how many there were.
fn count_turn<R: Wait>(rt: &R, lock: &TurnLock<Count>, pass: &mut Pass<Count>) -> u64
    requires { IsPassOf lock.now pass.old × Rests pass.old }
    ensures { IsPassOf lock.now pass.new × Rests pass.new
        × (number_of pass.new ≡ number_of pass.old) }
{
    let mut turn = pass.claim(rt, lock);
    let turns = turn.value().turns;
    if turns == u64::MAX {
        turn.release::<Nothing>();
        return turns;
    }
    turn.value().turns = turns + 1;
    turn.release::<Brand>();
    turns + 1
}

#[test]
fn the_second_pass_is_busy_until_the_release(rt: HostRuntime) {
    let (lock, mut passes) = TurnLock::new(rt.alloc(), Count { turns: 0 }, 2).expect(&rt, "memory");
    let mut second = passes.pop().expect(&rt, "two passes");
    let mut first = passes.pop().expect(&rt, "one pass");
    assert_eq!(rt; (first.number(), second.number()), (1, 2));
    let mark = lock.mark();
    assert_eq!(rt; tries(&lock, &mut first, &mut second), (1, true));
    assert_eq!(rt; tries(&lock, &mut second, &mut first), (2, true));
    assert_eq!(rt; lock.mark(), mark, "nothing was added");
    assert_eq!(rt; count_turn(&rt, &lock, &mut first), 1);
    assert_eq!(rt; lock.mark().wrapping_sub(mark), 1);
    lock.rest(&rt, mark);
    assert_eq!(rt; count_turn(&rt, &lock, &mut second), 2);
    lock.join(&mut first, second);
    assert_eq!(rt; count_turn(&rt, &lock, &mut first), 3);
}
