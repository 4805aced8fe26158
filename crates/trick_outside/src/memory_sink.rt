ghost use Rattle.std.specs.Prelude.{◌≡◌, ◌↔◌, ◌∷◌, ◌<◌, [], Some, length};

use crate::fault_plan::FaultPlan;
use crate::{Sink, Taken1};
use std::alloc::Global;

/// A sink over memory, which tells what it has taken.
#[derive(Debug, Drop)]
pub struct MemorySink {
    bytes: Vec<u8>,
    most: usize,
    plan: FaultPlan,
    ghost positive: { 0 < most },
}

impl MemorySink {
    ghost use Rattle.trick_outside.specs.Kept.{SameSinkPlan, SinkFailsAt, SinkNeverFails};
    ghost use Rattle.trick_outside.specs.Kept.{most_taken};

    /// A sink that never fails, and takes each piece whole.
    pub fn new(alloc: Global) -> MemorySink
        ensures empty { ⟦<MemorySink as Sink>⟧.holds result ≡ Some [] }
        ensures never { SinkNeverFails result }
        ensures whole { most_taken result ≡ usize.MAX }
    {
        MemorySink {
            bytes: Vec::new(alloc),
            most: usize::MAX,
            plan: FaultPlan::never(alloc),
        }
    }

    /// A sink whose writes of these numbers fail, the first write being number 0, and which takes
    /// each other piece whole.
    pub fn failing(alloc: Global, calls: Vec<u64>) -> MemorySink
        ensures empty { ⟦<MemorySink as Sink>⟧.holds result ≡ Some [] }
        ensures failing { SinkFailsAt result calls.items }
        ensures whole { most_taken result ≡ usize.MAX }
    {
        MemorySink {
            bytes: Vec::new(alloc),
            most: usize::MAX,
            plan: FaultPlan::at(calls),
        }
    }

    /// A sink that never fails, and takes at most `most` bytes of a piece.
    pub fn taking(alloc: Global, most: usize) -> MemorySink
        requires { 0 < most }
        ensures empty { ⟦<MemorySink as Sink>⟧.holds result ≡ Some [] }
        ensures never { SinkNeverFails result }
        ensures most { most_taken result ≡ most }
    {
        MemorySink::new(alloc).with_most(most)
    }

    /// The sink, taking at most `most` bytes of a piece from now on.
    pub fn with_most(self, most: usize) -> MemorySink
        requires { 0 < most }
        ensures held { ⟦<MemorySink as Sink>⟧.holds result ≡ ⟦<MemorySink as Sink>⟧.holds self }
        ensures uncounted { SameSinkPlan self result }
        ensures never { SinkNeverFails self → SinkNeverFails result }
        ensures most { most_taken result ≡ most }
    {
        let MemorySink { bytes, plan, .. } = self;
        MemorySink { bytes, most, plan }
    }

    /// The bytes that it has taken.
    pub fn bytes(&self) -> &[u8]
        ensures { ⟦<MemorySink as Sink>⟧.holds self.now ≡ Some result.now }
    {
        &self.bytes
    }
}

impl Sink for MemorySink {
    ghost use Rattle.trick_outside.specs.Kept.{SinkCountsOne, SinkFailsNext, SinkNeverFails, TakesMost};
    ghost use Rattle.trick_outside.specs.Kept.{most_taken};
    ghost use Rattle.trick_outside.specs.Pieces.{Pieces, Progress, piece_call};

    ghost holds = { λ sink. Some sink.bytes.items };

    ghost failures = { λ sink. sink.plan.faults };

    // Which pieces it was given need not be known, since it tells what it has taken. A sink that
    // never fails is still one after any pieces.
    ghost called = { λ old _ new. SinkNeverFails old → SinkNeverFails new };

    ghost called_none = { λ _ never. never };

    ghost called_join = { λ _ _ _ _ _ early late never. late (early never) };

    fn write(&mut self, piece: &[u8]) -> Taken1
        ensures told { SinkNeverFails self.old → SinkNeverFails self.new }
        ensures progress { Progress result (length piece.now) }
        ensures went { Pieces (Some self.old.bytes.items) (Some self.new.bytes.items)
            self.old.plan.faults self.new.plan.faults (piece_call piece.now result ∷ []) }

        // What this form promises beyond the trait.
        ensures fails { (result ≡ Taken1.Failed) ↔ SinkFailsNext self.old }
        ensures counted { SinkCountsOne self.old self.new }
        ensures most { TakesMost result (length piece.now) (most_taken self.old) }
        ensures most_stays { most_taken self.new ≡ most_taken self.old }
    {
        if self.plan.fails() {
            return Taken1::Failed;
        }
        let count = piece.len().min(self.most);
        match self.bytes.extend_from_slice(&piece[..count]) {
            Ok(()) => Taken1::Took(count),
            Err(_) => Taken1::OutOfMemory,
        }
    }

    fn faults(&self) -> u64 {
        self.plan.faults()
    }
}
