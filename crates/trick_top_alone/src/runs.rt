//! The run of an accepted plan without clients, from its start or from a checkpoint.

ghost use Rattle.std.specs.Arc.{arc_value};
ghost use Rattle.std.specs.Prelude.{◌≡◌, ◌⊎◌, Some, None, option_map};
ghost use Rattle.trick_top_alone.specs.Acts.{HasActed};
ghost use Rattle.trick_top_alone.specs.Aims as aim;
ghost use Rattle.trick_top_alone.specs.Verdict.{OutOfMemory, run_verdict, unloaded_verdict, verdict_of};

use crate::verdict::Verdict;
use std::alloc::Global;
use std::sync::Arc;
use trick_chkpt_state::resume;
use trick_codes::LoadFault;
use trick_exec_alone::{Summary, serial, serial_from};
use trick_model::Accepted;
use trick_outside::{Shelf, Stop};
use trick_top_refusals::checkpoint_line;

/// The verdict on a run that ended so.
pub(crate) fn ended(run: Result<Summary, Stop>) -> Verdict<'static>
    ensures { verdict_of result ≡ run_verdict run }
{
    match run {
        Ok(ended) => Verdict::Ended { ended, sessions: 0 },
        Err(Stop::Shelf) => Verdict::ShelfFault,
        Err(Stop::Memory) => Verdict::OutOfMemory,
    }
}

/// The verdict on a text that is no checkpoint.
pub fn unloaded(alloc: Global, fault: LoadFault) -> Verdict<'static>
    ensures { (verdict_of result ≡ unloaded_verdict fault) ⊎ (verdict_of result ≡ OutOfMemory) }
{
    if fault == LoadFault::OutOfMemory {
        return Verdict::OutOfMemory;
    }
    match checkpoint_line(alloc, fault) {
        Ok(line) => Verdict::TextRefused(line),
        Err(_) => Verdict::OutOfMemory,
    }
}

/// Runs an accepted plan without clients from its start.
fn run_new<F: Shelf>(
    alloc: Global,
    accepted: &Arc<Accepted, Global>,
    shelf: &mut F,
) -> Verdict<'static>
    ensures { HasActed F.Shelf shelf.old shelf.new (arc_value accepted.now).plan None None aim.Run
        (verdict_of result) }
{
    ended(serial(alloc, accepted, shelf))
}

/// Runs an accepted plan without clients from the state of which the text is the checkpoint.
fn run_from<F: Shelf>(
    alloc: Global,
    accepted: &Arc<Accepted, Global>,
    text: &[u8],
    shelf: &mut F,
) -> Verdict<'static>
    ensures { HasActed F.Shelf shelf.old shelf.new (arc_value accepted.now).plan (Some text.now) None aim.Run
        (verdict_of result) }
{
    match resume(alloc, accepted.plan(), text) {
        Ok(state) => ended(serial_from(alloc, accepted, state, shelf)),
        Err(fault) => unloaded(alloc, fault),
    }
}

/// Runs an accepted plan without clients, from its start or from a checkpoint.
pub(crate) fn run<F: Shelf>(
    alloc: Global,
    accepted: &Arc<Accepted, Global>,
    from: Option<&[u8]>,
    shelf: &mut F,
) -> Verdict<'static>
    ensures { HasActed F.Shelf shelf.old shelf.new (arc_value accepted.now).plan
        (option_map (λ text. text.now) from.entry) None aim.Run (verdict_of result) }
{
    match from {
        None => run_new(alloc, accepted, shelf),
        Some(text) => run_from(alloc, accepted, text, shelf),
    }
}
