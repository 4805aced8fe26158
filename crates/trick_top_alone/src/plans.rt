//! What a command does with an accepted plan.

ghost use Rattle.std.specs.Arc.{arc_value};
ghost use Rattle.std.specs.Prelude.{◌≡◌, ◌⊎◌};
ghost use Rattle.trick_top_alone.specs.Acts.{HasActed, accepted_verdict, listed_verdict};
ghost use Rattle.trick_top_alone.specs.Aims as aim;
ghost use Rattle.trick_top_alone.specs.Sources.{sources_of};
ghost use Rattle.trick_top_alone.specs.Verdict.{OutOfMemory, verdict_of};
ghost use Rattle.trick_top_alone.specs.Words.{aim_of_task};

use crate::replays::replay;
use crate::runs::run;
use crate::sources::Sources;
use crate::verdict::Verdict;
use std::alloc::Global;
use std::sync::Arc;
use trick_memory::listing;
use trick_model::{Accepted, Plan};
use trick_outside::Shelf;
use trick_top_words::Task;

/// What `check` says of an accepted plan.
fn accepted(plan: &Plan) -> Verdict<'static>
    ensures { verdict_of result ≡ accepted_verdict plan.now }
{
    Verdict::Accepted {
        cells: plan.program.cells.len() as u64,
        jobs: plan.program.jobs.len() as u64,
        threads: plan.threads.len() as u64,
    }
}

/// What `list` says of a plan.
fn listed(alloc: Global, plan: &Plan) -> Verdict<'static>
    ensures { (verdict_of result ≡ listed_verdict plan.now) ⊎ (verdict_of result ≡ OutOfMemory) }
{
    let Ok(mut line) = listing(alloc, plan) else {
        return Verdict::OutOfMemory;
    };
    match line.push(b'\n') {
        Ok(()) => Verdict::Listed(line),
        Err(_) => Verdict::OutOfMemory,
    }
}

/// Runs an accepted plan, under the journal where its text is given.
fn run_given<F: Shelf>(
    alloc: Global,
    accepted: &Arc<Accepted, Global>,
    given: Sources,
    shelf: &mut F,
) -> Verdict<'static>
    ensures { HasActed F.Shelf shelf.old shelf.new (arc_value accepted.now).plan (sources_of given.entry).from
        (sources_of given.entry).journal aim.Run (verdict_of result) }
{
    match given.journal {
        None => run(alloc, accepted, given.from, shelf),
        Some(journal) => replay(alloc, accepted, given.from, journal, shelf),
    }
}

/// Shares an accepted plan with whoever works for its run, and runs it.
fn run_shared<F: Shelf>(
    alloc: Global,
    accepted: Accepted,
    given: Sources,
    shelf: &mut F,
) -> Verdict<'static>
    ensures { HasActed F.Shelf shelf.old shelf.new accepted.plan (sources_of given.entry).from
        (sources_of given.entry).journal aim.Run (verdict_of result) }
{
    match Arc::new(alloc, accepted) {
        Ok(accepted) => run_given(alloc, &accepted, given, shelf),
        Err(_) => Verdict::OutOfMemory,
    }
}

/// Does with an accepted plan what a command asks for. A run goes on from a checkpoint, where its text is
/// given, and runs under a journal, where its text is given.
pub(crate) fn act<F: Shelf>(
    alloc: Global,
    accepted_plan: Accepted,
    given: Sources,
    task: &Task,
    shelf: &mut F,
) -> Verdict<'static>
    ensures { HasActed F.Shelf shelf.old shelf.new accepted_plan.plan (sources_of given.entry).from
        (sources_of given.entry).journal (aim_of_task task.now) (verdict_of result) }
{
    match task {
        Task::Serial | Task::Run { .. } | Task::Replay { .. } => {
            run_shared(alloc, accepted_plan, given, shelf)
        }
        Task::Check => accepted(accepted_plan.plan()),
        Task::List => listed(alloc, accepted_plan.plan()),
    }
}
