//! What an input says of the run and of its threads, whatever the order of its lines.

ghost use Rattle.std.specs.Prelude.{◌≡◌, ◌≤◌, ◌+◌, IfOk};
ghost use Rattle.trick_base.specs.Time.{tic_limit};
ghost use Rattle.trick_model.specs.Valid.{IsFrame};
ghost use Rattle.trick_plan_settings.specs.Settings.{said_in, settings_in};
ghost use Rattle.trick_plan_settings.specs.Threads.{AreThreads};

use crate::said::Said;
use crate::threads;
use std::alloc::{AllocError, Global};
use trick_base::{Items, TIC_LIMIT};
use trick_input::Call;
use trick_lang::Program;
use trick_model::Thread;

// The software frame of an input that names none: a second, in tics.
const DEFAULT_FRAME: u64 = 1_000_000;

/// What an input says of the run and of its threads. Of two lines that say one thing the last counts,
/// and each holds for the whole input.
#[derive(Drop)]
pub struct Settings {
    /// The tics of a software frame, from 1 to 10^9.
    pub frame: u64,
    /// The first tic that is not run, at most 10^15 + 1.
    pub limit: u64,
    /// Whether the run starts in Freeze.
    pub frozen: bool,
    /// The threads of the plan.
    pub threads: Items<Thread>,
}

// What all lines say, in one pass.
fn said_in(alloc: Global, calls: &[Call]) -> Result<Said, AllocError>
    ensures { IfOk result (λ said. said ≡ said_in calls.now) }
{
    let mut said = Said::nothing(alloc)?;
    for call in calls {
        said.take(&call.form);
    }
    Ok(said)
}

/// What the lines of an input say of the run and of its threads, with the jobs of the program. Of lines that
/// say one thing the last counts. It goes through the lines once.
pub fn settings_in(alloc: Global, program: &Program, calls: &[Call]) -> Result<Settings, AllocError>
    ensures settings { IfOk result (λ settings. settings ≡ settings_in program.now.jobs calls.now) }
    ensures threads { IfOk result (λ settings. AreThreads program.now.jobs settings.threads) }
    ensures frame { IfOk result (λ settings. IsFrame settings.frame) }
    ensures limit { IfOk result (λ settings. settings.limit ≤ tic_limit + 1) }
{
    let said = said_in(alloc, calls)?;
    let frame = said.frame.unwrap_or(DEFAULT_FRAME);
    let threads = threads(alloc, program, said.threads.as_slice(), frame)?;
    Ok(Settings {
        frame,
        limit: said.limit.unwrap_or(TIC_LIMIT + 1),
        frozen: said.frozen.unwrap_or(false),
        threads,
    })
}
