//! Work for a thread of its own, and what is known of its result.
ghost use Rattle.std.specs.Prelude.{◌≡◌};
ghost use Rattle.trick_outside.specs.Works.{Runs};

use std::snapshot::Snapshot;
use std::thread::{Promise, PromisedHandle, Threads};

/// What a thread does once. The work and its result cross threads.
pub trait Work: Send + Drop {
    /// The result.
    type Out: Send + Drop;

    /// What holds of the result of this work.
    ghost promises: { Self → Self.Out → Type 0 };

    /// Does the work.
    fn run(self) -> Self::Out
        ensures { promises self result };
}

/// What a thread made of its work.
#[derive(Drop)]
pub enum Ran<W: Work> {
    /// The result.
    Out(W::Out),
    /// The work as it was. Only a work whose start was refused is given back so.
    Back(W),
}

/// The promise of a work, which remembers the work as it was when it was started.
#[derive(Drop)]
pub struct Promised<W> {
    pub work: Snapshot<W>,
}

impl<W: Work> Promise<Ran<W>> for Promised<W> {
    ghost use Rattle.std.specs.Prelude.{◌≡◌};
    ghost use Rattle.trick_outside.specs.Works.{MatchRan};

    ghost kept_by = { λ promise ran.
        MatchRan ran (λ out. W.promises promise.work.value out) (λ work. work ≡ promise.work.value) };
}

/// Work that was started. Each is to be finished: a thread that nobody waits for may be cut off at the
/// end of the program.
#[derive(Drop)]
pub enum Running<W: Work> {
    /// It runs in a thread of its own, or did.
    There(PromisedHandle<Ran<W>, Promised<W>>),
    /// It is done, and this is its result.
    Here(W::Out),
}

/// The answer to a start.
#[derive(Drop)]
pub enum Begun<W: Work> {
    /// It was started.
    Started(Running<W>),
    /// It was not started. The spawner's count of faults rose, and this is the work.
    Refused(W),
}

impl<W: Work> Running<W> {
    /// Waits for the work, and hands on its result, which keeps what the work promises.
    pub fn finish<R: Threads>(self, rt: &R) -> W::Out
        ensures { (work : W) → Runs W.promises work self → W.promises work result }
    {
        match self {
            Running::There(child) => match child.join(rt) {
                Ran::Out(out) => out,
                Ran::Back(work) => work.run(),
            },
            Running::Here(out) => out,
        }
    }
}
