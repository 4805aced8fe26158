//! The gate of the tests, which shows and disturbs what workers do.

use crate::links::Signals;
use std::alloc::Global;
use std::rt::Clock;
use std::sync::Arc;
use std::sync::atomic::Ordering::SeqCst;
use std::sync::atomic::{AtomicBool, AtomicU64};
use std::thread;
use std::thread::yield_now;
use std::time::Duration;
use trick_outside::Gate;

/// How often a worker looks for another one. It takes a second or two.
const LOOKS: u32 = 5_000_000;

/// A gate at which each worker waits until two were there at one moment.
#[derive(Drop)]
pub(crate) struct Meeting {
    inside: AtomicU64,
    have_met: AtomicBool,
}

impl Meeting {
    /// A gate at which nobody was yet.
    pub(crate) fn new() -> Meeting {
        Meeting {
            inside: AtomicU64::new(0),
            have_met: AtomicBool::new(false),
        }
    }

    /// Whether two workers were there at one moment.
    pub(crate) fn have_met(&self) -> bool {
        self.have_met.load(SeqCst)
    }

    // Looks until two workers have met.
    fn wait(&self) {
        for _ in 0..LOOKS {
            if self.have_met() {
                return;
            }
            yield_now();
        }
    }

    // A worker is there.
    fn meet(&self) {
        if self.inside.fetch_add(1, SeqCst) > 0 {
            self.have_met.store(true, SeqCst);
        }
        self.wait();
        self.inside.fetch_sub(1, SeqCst);
    }
}

/// How many frames the clerk of thread 1 is held.
pub(crate) const HELD_FRAMES: u64 = 50;

/// How often thread 2 lets others run in each frame after that.
const YIELDS: u64 = 2000;

/// A gate at which the clerk of thread 1 waits until thread 2 has gone on for many frames. Thread 2 waits for the clerk
/// to come, and, after those frames, to go on.
#[derive(Drop)]
pub(crate) struct Holding {
    frames: AtomicU64,
    has_come: AtomicBool,
    was_held: AtomicBool,
}

// Looks until a flag is raised.
fn wait_for(flag: &AtomicBool) {
    for _ in 0..LOOKS {
        if flag.load(SeqCst) {
            return;
        }
        yield_now();
    }
}

impl Holding {
    /// A gate at which nobody was yet.
    pub(crate) fn new() -> Holding {
        Holding {
            frames: AtomicU64::new(0),
            has_come: AtomicBool::new(false),
            was_held: AtomicBool::new(false),
        }
    }

    /// Whether the clerk was held while the run went on.
    pub(crate) fn was_held(&self) -> bool {
        self.was_held.load(SeqCst)
    }

    // Looks until the run has gone on.
    fn hold(&self) {
        self.has_come.store(true, SeqCst);
        for _ in 0..LOOKS {
            if self.frames.load(SeqCst) >= HELD_FRAMES {
                self.was_held.store(true, SeqCst);
                return;
            }
            yield_now();
        }
    }

    // Counts a frame. The clerk's first round starts after the first one.
    fn pass_frame(&self) {
        let frame = self.frames.fetch_add(1, SeqCst);
        if frame == 1 {
            wait_for(&self.has_come);
        }
        if frame >= HELD_FRAMES {
            wait_for(&self.was_held);
            self.go_slowly();
        }
    }

    // Lets others run, so that the clerk is back before the run ends.
    fn go_slowly(&self) {
        for _ in 0..YIELDS {
            yield_now();
        }
    }

    // The worker or clerk of this thread is there.
    fn hold_clerk(&self, thread: u8) {
        if thread == 1 {
            self.hold();
        } else if thread == 2 {
            self.pass_frame();
        }
    }
}

// A number that looks like chance.
fn chance(number: u64) -> u64 {
    number.wrapping_mul(0x9E37_79B9_7F4A_7C15) >> 40
}

/// A gate at which workers are held up by chance: not at all, by a yield, or by a sleep of some microseconds.
#[derive(Drop)]
pub(crate) struct Shaking<C: Clock> {
    clock: C,
    passes: AtomicU64,
}

impl<C: Clock> Shaking<C> {
    /// A gate whose chances begin with this number.
    pub(crate) fn new(clock: C, first: u64) -> Shaking<C> {
        Shaking {
            clock,
            passes: AtomicU64::new(first),
        }
    }

    // A worker is there.
    fn shake(&self) {
        let chance = chance(self.passes.fetch_add(1, SeqCst));
        match chance % 4 {
            0 => thread::sleep(&self.clock, Duration::from_micros(chance % 17)),
            1 => yield_now(),
            _ => {}
        }
    }
}

/// What a worker meets between take and commit. The gates are kept after the run, and by nobody else once all of its
/// threads are gone.
#[derive(Drop)]
pub(crate) enum Trial<C: Clock> {
    /// It goes on at once.
    Pass,
    Meet(Arc<Meeting, Global>),
    Hold(Arc<Holding, Global>),
    Shake(Arc<Shaking<C>, Global>),
    /// In tic 0 it waits until a client's link has ended.
    Wait(Arc<Signals, Global>),
}

impl<C: Clock> Gate for Trial<C> {
    fn between(&self, thread: u8, tic: u64, _job: u32) {
        match self {
            Trial::Pass => {}
            Trial::Meet(meeting) => meeting.meet(),
            Trial::Hold(holding) => holding.hold_clerk(thread),
            Trial::Shake(shaking) => shaking.shake(),
            Trial::Wait(signals) => {
                if tic == 0 {
                    signals.wait_for_the_link();
                }
            }
        }
    }
}
