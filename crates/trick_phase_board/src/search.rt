//! How the next job of a thread is found.

ghost use Rattle.std.specs.List.{slice_index_or};
ghost use Rattle.std.specs.Option.{IfSome};
ghost use Rattle.std.specs.Prelude.{◌≡◌, ◌<◌, [], length};
ghost use Rattle.trick_phase_board.specs.Counts.{AreCounted, own_at};
ghost use Rattle.trick_phase_board.specs.Search.{ArePassed, AreFirst, IsPassed, find_wanted, least_of, meets, next_in, other_than};
ghost use Rattle.trick_phase_board.specs.Tables.{IsFor};
ghost use Rattle.trick_model.specs.PlanOf.{plan_of};
ghost use Rattle.trick_phase_schedules.specs.Play.{stage_at};

use crate::Tables;
use crate::counts::{awaited, has_none_left};
use crate::known::Known;
use crate::tables::list_at;
use trick_lang::JobId;
use trick_model::{Plan, precedes};
use trick_phase_schedules::Stage;

/// Which jobs are looked for.
#[derive(Clone, Copy)]
pub enum Wanted {
    Waiting,
    InFlight,
    /// Due, and not committed.
    Open,
}

/// What a thread can do next.
pub enum Next {
    /// Take this job.
    Ready(JobId),
    /// Take the first job after the second one is committed; or wait for the one that is in flight.
    Waits(JobId, JobId),
    /// Nothing more in this tic.
    Nothing,
}

/// The stage of a job.
pub fn stage_of(stages: &[Stage], job: JobId) -> Stage
    ensures { result ≡ stage_at stages.now job.0 }
{
    match stages.get(job.0 as usize) {
        Some(stage) => *stage,
        None => Stage::Idle,
    }
}

/// Whether a stage is of the wanted kind.
pub fn is_wanted(wanted: Wanted, stage: Stage) -> bool
    ensures { result ≡ meets wanted stage }
{
    match wanted {
        Wanted::Waiting => matches!(stage, Stage::Waiting),
        Wanted::InFlight => matches!(stage, Stage::InFlight),
        Wanted::Open => matches!(stage, Stage::Waiting | Stage::InFlight),
    }
}

/// The first job of a list that is of the wanted kind.
pub fn find(wanted: Wanted, stages: &[Stage], jobs: &[JobId]) -> Option<JobId>
    ensures { result ≡ find_wanted wanted stages.now jobs.now }
{
    for job in jobs {
        if is_wanted(wanted, stage_of(stages, *job)) {
            return Some(*job);
        }
    }
    None
}

// The first job of a list that is of the wanted kind, where none of the first `passed` jobs is open.
fn find_behind(wanted: Wanted, stages: &[Stage], jobs: &[JobId], passed: usize) -> Option<JobId>
    requires { IsPassed stages.now jobs.now passed }
    ensures { result ≡ find_wanted wanted stages.now jobs.now }
{
    if passed < jobs.len() {
        find(wanted, stages, &jobs[passed..])
    } else {
        None
    }
}

// How many of the first jobs of a thread are known not to be open.
fn passed_of(passed: &[usize], thread: u8) -> usize
    ensures { result ≡ slice_index_or passed.now thread 0 }
{
    match passed.get(thread as usize) {
        Some(passed) => *passed,
        None => 0,
    }
}

/// How many of the first jobs of a list are not open, of which `passed` are known.
pub fn pass(stages: &[Stage], jobs: &[JobId], passed: usize) -> usize
    requires { IsPassed stages.now jobs.now passed }
    ensures { IsPassed stages.now jobs.now result }
{
    let mut passed = passed;
    for _job in passed..jobs.len() {
        if is_wanted(Wanted::Open, stage_of(stages, jobs[passed])) {
            return passed;
        }
        passed += 1;
    }
    passed
}

// A job that is another one.
fn other(job: JobId, found: Option<JobId>) -> Option<JobId>
    ensures { result ≡ other_than job found }
{
    match found {
        None => None,
        Some(other) => { if other.0 == job.0 { None } else { Some(other) } }
    }
}

// The one of smaller key, if there is one.
fn least(plan: &Plan, one: Option<JobId>, other: Option<JobId>) -> Option<JobId>
    requires one { IfSome one (λ job. job.0 < length plan.now.program.jobs) }
    requires other { IfSome other (λ job. job.0 < length plan.now.program.jobs) }
    ensures { result ≡ least_of (plan_of plan.now) one other }
{
    let Some(first) = one else {
        return other;
    };
    let Some(second) = other else {
        return one;
    };
    if precedes(plan.job(second), plan.job(first)) {
        Some(second)
    } else {
        Some(first)
    }
}

/// What a thread can do next, where none of its first jobs that are known as passed is open. It costs the
/// jobs after them up to the next one, and those that this depends on where its counts are not 0.
pub fn next_of(plan: &Plan, tables: &Tables, stages: &[Stage], known: &Known, thread: u8) -> Next
    requires tables { IsFor (plan_of plan.now) tables.now }
    requires passed { ArePassed tables.now stages.now known.now.passed.items }
    requires counted { AreCounted tables.now stages.now known.now.counts.items }
    requires first { AreFirst tables.now stages.now (own_at tables.now known.now.ranks.items known.now.left.items) thread }
    ensures { result ≡ next_in (plan_of plan.now) tables.now stages.now thread }
{
    let line = list_at(tables.lines.as_slice(), thread as usize);
    let passed = passed_of(&known.passed, thread);
    let Some(job) = find_behind(Wanted::Waiting, stages, line, passed) else {
        return match find_behind(Wanted::InFlight, stages, line, passed) {
            Some(job) => Next::Waits(job, job),
            None => Next::Nothing,
        };
    };
    if has_none_left(tables, known, job) {
        return Next::Ready(job);
    }
    let first = find_behind(Wanted::Open, stages, line, passed);
    let before = other(job, first);
    let depended = awaited(tables, stages, &known.counts, job);
    match least(plan, before, depended) {
        Some(waits_for) => Next::Waits(job, waits_for),
        None => Next::Ready(job),
    }
}
