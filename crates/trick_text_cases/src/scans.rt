//! The arithmetic of due tics beside a plain scan over tics, for all cycles up to 12, starts up to 12 and stops up
//! to 40.

ghost use Rattle.std.specs.Prelude.{◌<◌, ◌≤◌};
ghost use Rattle.trick_cycle.specs.Due.{IsInRange};

use trick_cases_report::Report;
use trick_cycle::{Due, covers, first_shared, next_due};

// The last tic of a scan.
const LAST: u64 = 40;

// How many pairs there are of a cycle from 1 to 12 and a start from 0 to 12.
const PAIRS: u64 = 156;

// How many calls were compared, and how many answered otherwise than the scan.
#[derive(Drop)]
struct Tally {
    calls: u64,
    others: u64,
}

impl Tally {
    fn add(&mut self, is_right: bool) {
        self.calls = self.calls.saturating_add(1);
        if !is_right {
            self.others = self.others.saturating_add(1);
        }
    }
}

// What is compared.
fn tally_of(kind: &str) -> Tally {
    let mut tally = Tally {
        calls: 0,
        others: 0,
    };
    for pair in 0..PAIRS {
        match kind {
            "next" => add_nexts(&mut tally, pair),
            "shared" => add_shared(&mut tally, pair),
            _ => add_covers(&mut tally, pair),
        }
    }
    tally
}

/// How many calls are as the scan says: `next` from each tic up to 41; `shared` for all pairs, where the second has
/// the stop of the first, what it leaves of 40, and 40; `covers` for every 97th of the pairs that are covered, whose
/// stops fall from 40 as the other one's rises.
pub(crate) fn compared(kind: &str, report: &mut Report) {
    let tally = tally_of(kind);
    report.number("", tally.calls, " calls, ");
    report.number("", tally.others, " answered otherwise");
}

// A cycle from 1 to 12 and a start from 0 to 12 by their number, with this stop.
fn small(pair: u64, stop: u64) -> Due
    requires pair { pair < PAIRS }
    requires stop { stop ≤ LAST }
    ensures { IsInRange result }
{
    Due {
        start: pair / 12,
        cycle: pair % 12 + 1,
        stop,
    }
}

// The due tics up to 40, by looking at each: bit t for tic t.
fn scan(a: Due) -> u64
    requires { IsInRange a }
{
    let mut tics = 0;
    for tic in 0..=LAST {
        if a.start <= tic && tic <= a.stop && (tic - a.start) % a.cycle == 0 {
            tics |= 1 << tic;
        }
    }
    tics
}

// The least of these tics.
fn least(tics: u64) -> Option<u64> {
    if tics == 0 {
        None
    } else {
        Some(tics.trailing_zeros() as u64)
    }
}

// From each tic on, for each stop.
fn add_nexts(tally: &mut Tally, pair: u64)
    requires { pair < PAIRS }
{
    for stop in 0..=LAST {
        let a = small(pair, stop);
        let tics = scan(a);
        for from in 0..=LAST + 1 {
            tally.add(next_due(a, from) == least(tics >> from << from));
        }
    }
}

// Of one and another.
fn add_meeting(tally: &mut Tally, a: Due, b: Due)
    requires a { IsInRange a }
    requires b { IsInRange b }
{
    tally.add(first_shared(a, b) == least(scan(a) & scan(b)));
}

// With each other one, for each stop.
fn add_shared(tally: &mut Tally, pair: u64)
    requires { pair < PAIRS }
{
    for other in 0..PAIRS {
        for stop in 0..=LAST {
            let a = small(pair, stop);
            add_meeting(tally, a, small(other, stop));
            add_meeting(tally, a, small(other, LAST - stop));
            add_meeting(tally, a, small(other, LAST));
        }
    }
}

// Over each 97th of the pairs of two, for each stop.
fn add_covers(tally: &mut Tally, pair: u64)
    requires { pair < PAIRS }
{
    for first in 0..PAIRS {
        for second in 0..PAIRS {
            if (first * PAIRS + second) % 97 == 0 {
                add_covered(tally, pair, first, second);
            }
        }
    }
}

// Over one pair of two, for each stop.
fn add_covered(tally: &mut Tally, pair: u64, first: u64, second: u64)
    requires pair { pair < PAIRS }
    requires first { first < PAIRS }
    requires second { second < PAIRS }
{
    for stop in 0..=LAST {
        let a = small(first, LAST - stop / 2);
        let b = small(second, LAST - stop / 3);
        let c = small(pair, stop);
        let is_covered = scan(a) & scan(b) & !scan(c) == 0;
        tally.add(covers(c, a, b) == is_covered);
    }
}
