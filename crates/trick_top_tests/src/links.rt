//! The link of the tests: what a client says, at once, or while a job is at work that waits for it.

ghost use Rattle.std.specs.Prelude.{◌≡◌, [], List, ℕ, Some, length};

use std::alloc::Global;
use std::sync::Arc;
use std::sync::atomic::AtomicBool;
use std::sync::atomic::Ordering::SeqCst;
use std::thread::yield_now;
use trick_outside::{LinkIn, Read1, ScriptIn};

/// How often the one looks for the other.
const LOOKS: u32 = 1_000_000;

/// What has happened to a link and to a job that wait for each other.
#[derive(Drop)]
pub(crate) struct Signals {
    /// A job of tic 0 is at work.
    works: AtomicBool,
    /// The link has answered that it has ended.
    ended: AtomicBool,
    /// The one has looked for the other as often as it may.
    late: AtomicBool,
}

impl Signals {
    /// Nothing has happened.
    pub(crate) fn new() -> Signals {
        Signals {
            works: AtomicBool::new(false),
            ended: AtomicBool::new(false),
            late: AtomicBool::new(false),
        }
    }

    /// Whether each has found the other.
    pub(crate) fn have_met(&self) -> bool {
        self.works.load(SeqCst) && self.ended.load(SeqCst) && !self.late.load(SeqCst)
    }

    // Waits for something to happen.
    fn wait_for(&self, happened: &AtomicBool) {
        for _ in 0..LOOKS {
            if happened.load(SeqCst) {
                return;
            }
            yield_now();
        }
        self.late.store(true, SeqCst);
    }

    /// A job of tic 0 is at work. It waits until the link has ended.
    pub(crate) fn wait_for_the_link(&self) {
        self.works.store(true, SeqCst);
        self.wait_for(&self.ended);
    }

    // Waits until a job of tic 0 is at work.
    fn wait_for_a_job(&self) {
        self.wait_for(&self.works);
    }

    // The link has answered that it has ended.
    fn end(&self) {
        self.ended.store(true, SeqCst);
    }
}

/// A link that gives its script, at once or once a job of tic 0 is at work.
#[derive(Drop)]
pub(crate) struct TestIn {
    script: ScriptIn,
    signals: Option<Arc<Signals, Global>>,
    is_first: bool,
}

impl TestIn {
    /// A link that gives its script at once.
    pub(crate) fn of(script: ScriptIn) -> TestIn {
        TestIn {
            script,
            signals: None,
            is_first: true,
        }
    }

    /// A link that waits for a job.
    pub(crate) fn waiting(script: ScriptIn, signals: Arc<Signals, Global>) -> TestIn {
        TestIn {
            script,
            signals: Some(signals),
            is_first: true,
        }
    }

    // Waits for a job, where it is to wait.
    fn wait(&self) {
        if let Some(signals) = &self.signals {
            signals.wait_for_a_job();
        }
    }

    // Tells that it has ended.
    fn end(&self) {
        if let Some(signals) = &self.signals {
            signals.end();
        }
    }
}

impl LinkIn for TestIn {
    ghost holds = { λ link. ⟦<ScriptIn as LinkIn>⟧.holds link.script };

    ghost failures = { λ link. ⟦<ScriptIn as LinkIn>⟧.failures link.script };

    fn read(&mut self, buffer: &mut [u8]) -> Read1 {
        if self.is_first {
            self.is_first = false;
            self.wait();
        }
        let answer = self.script.read(buffer);
        if answer == Read1::End {
            self.end();
        }
        answer
    }

    fn faults(&self) -> u64 {
        self.script.faults()
    }
}
