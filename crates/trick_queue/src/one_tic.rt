//! A tic that is passed.
ghost use Rattle.std.specs.Prelude.{◌≡◌, ◌∷◌, ◌++◌, ◌+◌, ◌<◌, ◌≤◌, [], IfSome, cond, length, vec_capacity};
ghost use Rattle.trick_base.specs.Time.{tic_limit};
ghost use Rattle.trick_cycle.specs.Due.{IsDue, IsInRange, is_due_at};
ghost use Rattle.trick_queue.specs.Calendar.{IsFirst, IsNext, tic_of};
ghost use Rattle.trick_queue.specs.Groups.{times_by};
ghost use Rattle.trick_queue.specs.Tree.{never};
ghost use Rattle.trick_queue.specs.Passed.{AreInRange, IsPassed, IsPassing, late};

use crate::calendar::Calendar;
use crate::group::Group;
use crate::steps::Steps;
use std::sync::ledger::Ledger;
use trick_cycle::{Due, is_due, laws, next_due};

// Whether times that have this least due tic, of those that are not passed, are due at a tic that is not before it.
fn is_due_then(times: Due, least: u64, tic: u64) -> bool
    requires range { IsInRange times }
    requires least { IsDue times least }
    ensures { result ≡ is_due_at times tic }
{
    laws::due_test_is_exact();
    least == tic || is_due(times, tic)
}

// The least due tic after this one. Where times are due at the tic, it comes a cycle later.
fn next_after(times: Due, tic: u64, is_due: bool) -> Option<u64>
    requires range { IsInRange times }
    requires due { is_due ≡ is_due_at times tic }
    requires tic { tic ≤ tic_limit }
    ensures next { IsNext times (tic + 1) (tic_of result) }
    ensures small { IfSome result (λ t. t < never) }
    ensures later { tic < tic_of result }
{
    laws::due_test_is_exact();
    laws::next_comes_a_cycle_later();
    if !is_due {
        return next_due(times, tic + 1);
    }
    let next = tic + times.cycle;
    if next <= times.stop { Some(next) } else { None }
}

// Notes a group where it is due.
fn note(due: &mut Vec<u32>, group: u32, is_due: bool)
    requires { length due.old.items < vec_capacity due.old }
    ensures items { due.new.items ≡ due.old.items ++ cond is_due (group ∷ []) [] }
    ensures capacity { vec_capacity due.new ≡ vec_capacity due.old }
{
    if is_due {
        due.push_reserved(group);
    }
}

// Passes the tic of a group, whose entry is the first one and not after the tic.
fn pass_group(
    groups: &[Group],
    entry: (u64, u32),
    tic: u64,
    calendar: &mut Calendar,
    due: &mut Vec<u32>,
)
    requires range { AreInRange (times_by groups.now) }
    requires first { IsFirst calendar.old entry.0 entry.1 }
    requires late { entry.0 ≤ tic }
    requires tic { tic ≤ tic_limit }
    requires passing { IsPassing (times_by groups.now) calendar.old tic due.old.items }
    requires room { length groups.now ≤ vec_capacity due.old }
    ensures passing { IsPassing (times_by groups.now) calendar.new tic due.new.items }
    ensures fewer { late tic calendar.new + 1 ≡ late tic calendar.old }
    ensures room { vec_capacity due.new ≡ vec_capacity due.old }
{
    let (least, group) = entry;
    let times = groups[group as usize].times;
    let is_due = is_due_then(times, least, tic);
    note(due, group, is_due);
    calendar.put(group, next_after(times, tic, is_due));
}

/// Passes a tic, which is not above 10^15: notes the groups that are due then, and gives each group whose tic is not
/// later its next one. It takes a step for each of these groups and one more, tells how many these were, and takes no
/// memory.
pub(crate) fn pass_tic<L: Ledger>(
    groups: &[Group],
    tic: u64,
    calendar: &mut Calendar,
    due: &mut Vec<u32>,
    steps: &mut Steps<L>,
) -> u64
    requires range { AreInRange (times_by groups.now) }
    requires tic { tic ≤ tic_limit }
    requires passing { IsPassing (times_by groups.now) calendar.old tic due.old.items }
    requires room { length groups.now ≤ vec_capacity due.old }
    ensures passed { IsPassed (times_by groups.now) calendar.new tic due.new.items }
    ensures room { vec_capacity due.new ≡ vec_capacity due.old }
    ensures steps { steps.new ≡ steps.old + late tic calendar.old + 1 }
    ensures counted { steps.new ≡ steps.old + result }
{
    let mut passed = 0;
    while let Some(entry) = calendar.first(steps) {
        if tic < entry.0 {
            return passed + 1;
        }
        pass_group(groups, entry, tic, calendar, due);
        passed += 1;
    }
    passed + 1
}
