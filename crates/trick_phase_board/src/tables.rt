ghost use Rattle.std.specs.List.{slice_index_or};
ghost use Rattle.std.specs.Prelude.{◌≡◌, ℕ, ◌==◌, ◌∷◌, ◌++◌, ◌<◌, [], IfOk, cond, filter, length};
ghost use Rattle.trick_phase_board.specs.Tables.{IsFor, awaits as awaits_of, depended_of, followers_of, ids_at, is_ahead as is_ahead_of, line_of, thread_in};
ghost use Rattle.trick_model.specs.Laws.{is_among};
ghost use Rattle.trick_model.specs.Plan.{thread_of as thread_of_job};
ghost use Rattle.trick_model.specs.PlanOf.{plan_of};
ghost use Rattle.trick_model.specs.Valid.{ids};
ghost use Rattle.trick_model.specs.declared.depends.Depends.{Depends as Pair};
ghost use Rattle.trick_phase_schedules.specs.Tics.{depends_on as depends_on_of};

use std::alloc::{AllocError, Global};
use trick_base::Items;
use trick_lang::{Class, JobId};
use trick_model::{Depends, Plan, precedes};

// Threads go from 0 to 15.
pub(crate) const THREADS: u8 = 16;

/// What a board looks up of jobs: their threads, and lists of jobs of class scheduled, each in key order.
#[derive(Drop)]
pub struct Tables {
    /// By job, its thread.
    pub(crate) threads: Items<u8>,
    /// By thread, its jobs.
    pub(crate) lines: Items<Items<JobId>>,
    /// By job, those that it depends on and that are not before it on its thread.
    pub(crate) depended: Items<Items<JobId>>,
    /// By job, those that wait for it so.
    pub(crate) followers: Items<Items<JobId>>,
}

// Whether a job depends on another one.
fn depends_on(pairs: &[Depends], target: JobId, depended: JobId) -> bool
    ensures { result ≡ depends_on_of pairs.now target.0 depended.0 }
{
    pairs.iter().any(|pair| pair.target.0 == target.0 && pair.depended.0 == depended.0)
}

// Adds a job where it is wanted.
fn add(jobs: &mut Items<JobId>, job: JobId, wanted: bool) -> Result<(), AllocError>
    ensures { IfOk result (λ _. jobs.new ≡ jobs.old ++ cond wanted (job ∷ []) []) }
{
    if wanted {
        jobs.push(job)?;
    }
    Ok(())
}

// The thread of each job.
fn threads(alloc: Global, plan: &Plan) -> Result<Items<u8>, AllocError>
    ensures many { IfOk result (λ threads. length threads ≡ length plan.now.program.jobs) }
    ensures right { IfOk result (λ threads. (k : ℕ)
        → slice_index_or threads k 0 ≡ thread_of_job plan.now.program.jobs k) }
{
    let mut threads = Items::new(alloc);
    for number in 0..plan.program.jobs.len() {
        threads.push(plan.job(JobId(number as u32)).thread)?;
    }
    Ok(threads)
}

// The jobs of a thread.
fn line(alloc: Global, plan: &Plan, thread: u8) -> Result<Items<JobId>, AllocError>
    ensures { IfOk result (λ jobs. ids jobs ≡ line_of (plan_of plan.now) thread) }
{
    let mut jobs = Items::new(alloc);
    let all = plan.jobs_of_class(Class::Scheduled);
    for job in all {
        add(&mut jobs, *job, plan.job(*job).thread == thread)?;
    }
    Ok(jobs)
}

// The pairs of a target.
fn pairs_of(alloc: Global, pairs: &[Depends], target: JobId) -> Result<Items<Depends>, AllocError>
    ensures { IfOk result (λ own. own ≡ filter (λ (pair : Pair). (pair.target).0 == target.0) pairs.now) }
{
    let own = pairs
        .iter()
        .copied()
        .filter(|pair| pair.target.0 == target.0)
        .collect(alloc)?;
    Ok(Items::from_vec(own))
}

// Whether another job comes before a job on its thread.
fn is_ahead(plan: &Plan, target: JobId, other: JobId) -> bool
    requires target { target.0 < length plan.now.program.jobs }
    requires other { other.0 < length plan.now.program.jobs }
    ensures { result ≡ is_ahead_of plan.now.program.jobs target.0 other.0 }
{
    let (job, before) = (plan.job(target), plan.job(other));
    precedes(before, job) && before.thread == job.thread
}

// Whether a job waits for another one by these pairs alone.
fn awaits(plan: &Plan, pairs: &[Depends], target: JobId, other: JobId) -> bool
    requires target { target.0 < length plan.now.program.jobs }
    requires other { other.0 < length plan.now.program.jobs }
    ensures { result ≡ awaits_of plan.now.program.jobs pairs.now target.0 other.0 }
{
    depends_on(pairs, target, other) && !is_ahead(plan, target, other)
}

// The jobs that a job depends on, but for those before it on its thread. It costs the pairs, and the jobs
// for each of its own.
fn depended(alloc: Global, plan: &Plan, target: JobId) -> Result<Items<JobId>, AllocError>
    requires { target.0 < length plan.now.program.jobs }
    ensures { IfOk result (λ jobs. ids jobs ≡ depended_of (plan_of plan.now) target.0) }
{
    let mut jobs = Items::new(alloc);
    let own = pairs_of(alloc, plan.depends.as_slice(), target)?;
    if own.is_empty() {
        return Ok(jobs);
    }
    let all = plan.jobs_of_class(Class::Scheduled);
    for job in all {
        let wanted = awaits(plan, own.as_slice(), target, *job);
        add(&mut jobs, *job, wanted)?;
    }
    Ok(jobs)
}

// The jobs of each thread.
fn lines(alloc: Global, plan: &Plan) -> Result<Items<Items<JobId>>, AllocError>
    ensures { IfOk result (λ lines. (thread : ℕ) → ids_at lines thread ≡ line_of (plan_of plan.now) thread) }
{
    let mut lines = Items::new(alloc);
    for thread in 0..THREADS {
        lines.push(line(alloc, plan, thread)?)?;
    }
    Ok(lines)
}

// The jobs that each job depends on, but for those before it on its thread.
fn all_depended(alloc: Global, plan: &Plan) -> Result<Items<Items<JobId>>, AllocError>
    ensures { IfOk result (λ all. (k : ℕ) → k < length plan.now.program.jobs
        → ids_at all k ≡ depended_of (plan_of plan.now) k) }
{
    let mut all = Items::new(alloc);
    for number in 0..plan.program.jobs.len() {
        all.push(depended(alloc, plan, JobId(number as u32))?)?;
    }
    Ok(all)
}

// Whether a job is one of these.
fn is_listed(jobs: &[JobId], job: JobId) -> bool
    ensures { result ≡ is_among job.0 (ids jobs.now) }
{
    for other in jobs {
        if other.0 == job.0 {
            return true;
        }
    }
    false
}

// The jobs that wait for a job, by those that each job waits for.
fn followers(
    alloc: Global,
    plan: &Plan,
    depended: &[Items<JobId>],
    job: JobId,
) -> Result<Items<JobId>, AllocError>
    requires { (k : ℕ) → k < length plan.now.program.jobs → ids_at depended.now k ≡ depended_of (plan_of plan.now) k }
    ensures { IfOk result (λ jobs. ids jobs ≡ followers_of (plan_of plan.now) job.0) }
{
    let mut jobs = Items::new(alloc);
    let all = plan.jobs_of_class(Class::Scheduled);
    for other in all {
        let own = list_at(depended, other.0 as usize);
        let wanted = is_listed(own, job);
        add(&mut jobs, *other, wanted)?;
    }
    Ok(jobs)
}

// The jobs that wait for each job.
fn all_followers(
    alloc: Global,
    plan: &Plan,
    depended: &[Items<JobId>],
) -> Result<Items<Items<JobId>>, AllocError>
    requires { (k : ℕ) → k < length plan.now.program.jobs → ids_at depended.now k ≡ depended_of (plan_of plan.now) k }
    ensures { IfOk result (λ all. (k : ℕ) → k < length plan.now.program.jobs
        → ids_at all k ≡ followers_of (plan_of plan.now) k) }
{
    let mut all = Items::new(alloc);
    for number in 0..plan.program.jobs.len() {
        all.push(followers(alloc, plan, depended, JobId(number as u32))?)?;
    }
    Ok(all)
}

impl Tables {
    // The tables of a plan. Their making costs the jobs times the jobs and the pairs.
    pub(crate) fn new(alloc: Global, plan: &Plan) -> Result<Self, AllocError>
        ensures { IfOk result (IsFor (plan_of plan.now)) }
    {
        let depended = all_depended(alloc, plan)?;
        let followers = all_followers(alloc, plan, depended.as_slice())?;
        Ok(Tables {
            threads: threads(alloc, plan)?,
            lines: lines(alloc, plan)?,
            depended,
            followers,
        })
    }
}

// The thread of a job.
pub(crate) fn thread_at(tables: &Tables, job: JobId) -> usize
    requires { job.0 < length tables.now.threads }
    ensures { result ≡ thread_in tables.now job.0 }
{
    tables.threads.as_slice()[job.0 as usize] as usize
}

// A list of many, or none past the last one.
pub(crate) fn list_at(lists: &[Items<JobId>], place: usize) -> &[JobId]
    ensures { result.now ≡ slice_index_or lists.now place [] }
{
    match lists.get(place) {
        Some(list) => list.as_slice(),
        None => &[],
    }
}
