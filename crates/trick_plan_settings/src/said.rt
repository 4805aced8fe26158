//! What lines say of the run and of its threads, one after another.

ghost use Rattle.std.specs.Prelude.{◌≡◌, [], IfOk};
ghost use Rattle.trick_plan_settings.specs.Settings.{changed, frame_said, frozen_said, is_frame, later, limit_said, over, said_in, threads_after};

use crate::Setting;
use std::alloc::{AllocError, Global};
use trick_base::{Items, TIC_LIMIT};
use trick_input::{Form, RunForm};

/// The longest software frame, in tics.
const FRAME_LIMIT: u64 = 1_000_000_000;

// Of a thread nothing is said.
const SILENT: Setting = Setting {
    process: None,
    cycle: None,
};

/// Whether a software frame may have so many tics: from 1 to 10^9. `docs/RULES.md` has the limits.
pub fn is_frame(tics: u64) -> bool
    ensures { result ≡ is_frame tics }
{
    0 < tics && tics <= FRAME_LIMIT
}

// What the lines so far say. Of two lines that say one thing the last counts.
#[derive(Drop)]
pub(crate) struct Said {
    // The software frame.
    pub frame: Option<u64>,
    // The first tic that is not run.
    pub limit: Option<u64>,
    // Whether the run starts in Freeze.
    pub frozen: Option<bool>,
    // Of each thread, by its number from 0 to 15.
    pub threads: Items<Setting>,
}

// What is said now, or else what was said before.
fn later<T: Copy + Drop>(said: Option<T>, before: Option<T>) -> Option<T>
    ensures { result ≡ later said before }
{
    match said {
        Some(said) => Some(said),
        None => before,
    }
}

// What is said of a thread now, over what was said of it before.
fn over(said: Setting, before: Setting) -> Setting
    ensures { result ≡ over said before }
{
    Setting {
        process: later(said.process, before.process),
        cycle: later(said.cycle, before.cycle),
    }
}

// Something is said of a thread. There is none past the last one.
fn name(threads: &mut Items<Setting>, thread: u64, said: Setting)
    ensures { threads.new ≡ changed (over said) threads.old thread }
{
    let place = thread as usize;
    if place < threads.len() {
        let before = threads.as_slice()[place];
        threads.set(place, over(said, before));
    }
}

impl Said {
    // Nothing is said.
    pub(crate) fn nothing(alloc: Global) -> Result<Said, AllocError>
        ensures { IfOk result (λ said. said ≡ said_in []) }
    {
        Ok(Said {
            frame: None,
            limit: None,
            frozen: None,
            threads: Items::from_vec(Vec::from_slice(alloc, &[SILENT; 16])?),
        })
    }

    // One more line.
    pub(crate) fn take(&mut self, form: &Form)
        ensures frame { self.new.frame ≡ later (frame_said form.now) self.old.frame }
        ensures limit { self.new.limit ≡ later (limit_said form.now) self.old.limit }
        ensures frozen { self.new.frozen ≡ later (frozen_said form.now) self.old.frozen }
        ensures threads { self.new.threads ≡ threads_after form.now self.old.threads }
    {
        let Form::Run(form) = form else {
            return;
        };
        match form {
            RunForm::SoftwareFrame { time: Ok(tics) } if is_frame(*tics) => {
                self.frame = Some(*tics);
            }
            RunForm::Stop { time: Ok(tics) } if *tics <= TIC_LIMIT => {
                self.limit = Some(*tics + 1);
            }
            RunForm::Freeze => {
                self.frozen = Some(true);
            }
            RunForm::ProcessType { thread, process } => {
                let process = Some(*process);
                name(&mut self.threads, *thread, Setting { process, ..SILENT });
            }
            RunForm::AmfCycle {
                thread,
                time: Ok(tics),
            } if 0 < *tics && *tics <= TIC_LIMIT => {
                let cycle = Some(*tics);
                name(&mut self.threads, *thread, Setting { cycle, ..SILENT });
            }
            _ => {}
        }
    }
}
