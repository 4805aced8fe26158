// Jobs that may be due at one tic on two threads, and do not commute.

ghost use Rattle.std.specs.Prelude.{◌≡◌, ◌↔◌, ◌<◌, IfOk, IsTrue, MatchBool, MatchOption, length};
ghost use Rattle.trick_cycle.specs.Due.{IsInRange};
ghost use Rattle.trick_model.specs.Acceptance.{AreIndependent, IsFine, IsOrderedBefore, Orders};
ghost use Rattle.trick_model.specs.Order.{precedes as precedes_of};
ghost use Rattle.trick_model.specs.PlanOf.{plan_of};
ghost use Rattle.trick_model.specs.Time.{due_of as due_of_job};
ghost use Rattle.trick_race.specs.Accesses.{AreAccesses};
ghost use Rattle.trick_race.specs.Racers.{AreRacers, IsFineAt, IsFirstOther, IsRaceAt, IsRacer};
ghost use Rattle.trick_race.specs.Refusals.{HaveNoRace, IsRace};

use crate::ranges::are_separate;
use std::alloc::{AllocError, Global};
use trick_access::Access;
use trick_cycle::{Due, covers, first_shared};
use trick_lang::{Class, JobId};
use trick_model::laws::key_order_is_one;
use trick_model::{Depends, Plan, precedes};

// The jobs of class scheduled on scheduled threads, in key order.
fn racers(alloc: Global, plan: &Plan) -> Result<Vec<JobId>, AllocError>
    ensures { IfOk result (λ jobs. AreRacers (plan_of plan.now) jobs.items) }
{
    key_order_is_one();
    let mut racers = Vec::new(alloc);
    for job in plan.jobs_of_class(Class::Scheduled) {
        if plan.is_on_scheduled(*job) {
            racers.push(*job)?;
        }
    }
    Ok(racers)
}

// Whether neither job may write a cell which the other may read or write.
fn are_independent(plan: &Plan, accesses: &[Access], a: JobId, b: JobId) -> bool
    requires accesses { AreAccesses (length plan.now.program.cells) (plan_of plan.now) accesses.now }
    requires a { a.0 < length plan.now.program.jobs }
    requires b { b.0 < length plan.now.program.jobs }
    ensures { IsTrue result ↔ AreIndependent (plan_of plan.now) a.0 b.0 }
{
    let (first, second) = (&accesses[a.0 as usize], &accesses[b.0 as usize]);
    are_separate(first, second, plan.program.cells.len())
}

// When a job that may race is due.
fn due_of(plan: &Plan, job: JobId) -> Due
    requires { IsRacer (plan_of plan.now) job.0 }
    ensures is { result ≡ due_of_job (plan_of plan.now) plan.now.jobs job.0 }
    ensures in_range { IsInRange result }
{
    let found = plan.job(job);
    Due {
        start: found.start,
        cycle: found.cycle,
        stop: found.stop,
    }
}

// Whether the pair orders the first job before the second.
fn orders(plan: &Plan, a: JobId, b: JobId, pair: Depends) -> bool
    requires a { IsRacer (plan_of plan.now) a.0 }
    requires b { IsRacer (plan_of plan.now) b.0 }
    requires target { IsRacer (plan_of plan.now) pair.target.0 }
    requires depended { IsRacer (plan_of plan.now) pair.depended.0 }
    ensures { IsTrue result ↔ Orders (plan_of plan.now) a.0 b.0 pair }
{
    let (first, second) = (plan.job(a), plan.job(b));
    let (depended, target) = (plan.job(pair.depended), plan.job(pair.target));
    if depended.thread != first.thread || target.thread != second.thread {
        return false;
    }
    if precedes(depended, first) || precedes(second, target) {
        return false;
    }
    let (one, other) = (due_of(plan, a), due_of(plan, b));
    covers(due_of(plan, pair.depended), one, other) && covers(due_of(plan, pair.target), one, other)
}

// Whether some pair orders the first job before the second.
fn is_ordered(plan: &Plan, a: JobId, b: JobId) -> bool
    requires a { IsRacer (plan_of plan.now) a.0 }
    requires b { IsRacer (plan_of plan.now) b.0 }
    ensures { MatchBool result (IsOrderedBefore (plan_of plan.now) a.0 b.0)
        (IsOrderedBefore (plan_of plan.now) a.0 b.0 → ⊥) }
{
    for pair in plan.depends.as_slice() {
        if orders(plan, a, b, *pair) {
            return true;
        }
    }
    false
}

// The first tic of a race of two jobs, the first of them with the smaller key.
fn race_of(plan: &Plan, accesses: &[Access], a: JobId, b: JobId) -> Option<u64>
    requires accesses { AreAccesses (length plan.now.program.cells) (plan_of plan.now) accesses.now }
    requires a { IsRacer (plan_of plan.now) a.0 }
    requires b { IsRacer (plan_of plan.now) b.0 }
    requires in_order { IsTrue (precedes_of plan.now.program.jobs a.0 b.0) }
    ensures { MatchOption result (IsFine (plan_of plan.now) a.0 b.0) (IsRaceAt (plan_of plan.now) a.0 b.0) }
{
    let (first, second) = (plan.job(a), plan.job(b));
    if first.thread == second.thread {
        return None;
    }
    if are_independent(plan, accesses, a, b) {
        return None;
    }
    let Some(tic) = first_shared(due_of(plan, a), due_of(plan, b)) else {
        return None;
    };
    if is_ordered(plan, a, b) {
        return None;
    }
    Some(tic)
}

// The first job after a place that races with the one there, and the first tic of the race.
fn first_other(
    plan: &Plan,
    accesses: &[Access],
    racers: &[JobId],
    place: usize,
) -> Option<(JobId, u64)>
    requires accesses { AreAccesses (length plan.now.program.cells) (plan_of plan.now) accesses.now }
    requires racers { AreRacers (plan_of plan.now) racers.now }
    requires place { place < length racers.now }
    ensures { MatchOption result (IsFineAt (plan_of plan.now) racers.now place)
        (λ found. IsFirstOther (plan_of plan.now) racers.now place (found.0).0 found.1) }
{
    for other in place + 1..racers.len() {
        if let Some(tic) = race_of(plan, accesses, racers[place], racers[other]) {
            return Some((racers[other], tic));
        }
    }
    None
}

// The first race of jobs that stand in key order, and its first tic.
fn first_pair(plan: &Plan, accesses: &[Access], racers: &[JobId]) -> Option<(JobId, JobId, u64)>
    requires accesses { AreAccesses (length plan.now.program.cells) (plan_of plan.now) accesses.now }
    requires racers { AreRacers (plan_of plan.now) racers.now }
    ensures { MatchOption result (HaveNoRace (plan_of plan.now))
        (λ race. IsRace (plan_of plan.now) (race.0).0 (race.1).0 race.2) }
{
    for place in 0..racers.len() {
        if let Some((other, tic)) = first_other(plan, accesses, racers, place) {
            return Some((racers[place], other, tic));
        }
    }
    None
}

// The first race by keys, and its first tic.
pub(crate) fn first_race(
    alloc: Global,
    plan: &Plan,
    accesses: &[Access],
) -> Result<Option<(JobId, JobId, u64)>, AllocError>
    requires { AreAccesses (length plan.now.program.cells) (plan_of plan.now) accesses.now }
    ensures { IfOk result (λ found. MatchOption found (HaveNoRace (plan_of plan.now))
        (λ race. IsRace (plan_of plan.now) (race.0).0 (race.1).0 race.2)) }
{
    let racers = racers(alloc, plan)?;
    Ok(first_pair(plan, accesses, racers.as_slice()))
}
