//! What a command does with the texts of a simulation.

ghost use Rattle.std.specs.Prelude.{◌≡◌};
ghost use Rattle.trick_top_alone.specs.Outcome.{HasPerformed};
ghost use Rattle.trick_top_alone.specs.Sources.{sources_of};
ghost use Rattle.trick_top_alone.specs.Verdict.{unready_verdict, verdict_of};
ghost use Rattle.trick_top_alone.specs.Words.{aim_of_task};

use crate::plans::act;
use crate::sources::Sources;
use crate::verdict::Verdict;
use std::alloc::Global;
use trick_outside::Shelf;
use trick_top_texts::{Unready, ready};
use trick_top_words::Task;

/// The verdict on two texts that have no plan to go on with.
pub fn refused(unready: Unready) -> Verdict<'static>
    ensures { verdict_of result ≡ unready_verdict unready }
{
    match unready {
        Unready::TextRefused { line } => Verdict::TextRefused(line),
        Unready::PlanRefused { line } => Verdict::PlanRefused(line),
        Unready::OutOfMemory => Verdict::OutOfMemory,
    }
}

/// What a command does with the texts of a simulation.
pub(crate) fn perform_on<F: Shelf>(
    alloc: Global,
    task: &Task,
    given: Sources,
    shelf: &mut F,
) -> Verdict<'static>
    ensures { HasPerformed F.Shelf shelf.old shelf.new (aim_of_task task.now) (sources_of given.entry)
        (verdict_of result) }
{
    match ready(alloc, given.s_define, given.input) {
        Ok(accepted) => act(alloc, accepted, given, task, shelf),
        Err(unready) => refused(unready),
    }
}
