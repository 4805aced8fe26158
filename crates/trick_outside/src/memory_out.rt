ghost use Rattle.std.specs.Prelude.{◌≡◌, ◌≤◌, ◌↔◌, [], Some, false, length, true};
ghost use Rattle.trick_outside.specs.Causes.{HasCause};
ghost use Rattle.trick_outside.specs.Links.{Took, bytes_taken};
ghost use Rattle.trick_outside.specs.Pieces.{Progress};

use crate::{LinkOut, MemorySink, Sink, Taken1};

/// A link over a sink in memory, which tells what it has taken, and whether it was hung up.
#[derive(Debug, Drop)]
pub struct MemoryOut {
    sink: MemorySink,
    hung_up: bool,
}

impl MemoryOut {
    /// A link that takes what this sink takes, and fails where it fails.
    pub fn new(sink: MemorySink) -> MemoryOut
        ensures held { ⟦<MemoryOut as LinkOut>⟧.holds result ≡ ⟦<MemorySink as Sink>⟧.holds sink }
        ensures sink { result.sink ≡ sink }
        ensures there { result.hung_up ≡ false }
    {
        MemoryOut {
            sink,
            hung_up: false,
        }
    }

    /// The bytes that it has taken.
    pub fn bytes(&self) -> &[u8]
        ensures { ⟦<MemoryOut as LinkOut>⟧.holds self.now ≡ Some result.now }
    {
        self.sink.bytes()
    }

    /// Whether it was hung up.
    pub fn is_hung_up(&self) -> bool
        ensures { result ≡ self.now.hung_up }
    {
        self.hung_up
    }
}

impl LinkOut for MemoryOut {
    ghost use Rattle.trick_outside.specs.Kept.{SinkCountsOne, SinkFailsNext, TakesMost, most_taken};

    ghost holds = { λ link. Some link.sink.bytes.items };

    ghost failures = { λ link. link.sink.plan.faults };

    fn write(&mut self, piece: &[u8]) -> Taken1
        ensures taken { Took (Some self.old.sink.bytes.items) (Some self.new.sink.bytes.items)
            (bytes_taken result piece.now) }
        ensures progress { Progress result (length piece.now) }
        ensures cause { HasCause self.old.sink.plan.faults self.new.sink.plan.faults (result ≡ Taken1.Failed) }

        // What this form promises beyond the trait.
        ensures fails { (result ≡ Taken1.Failed) ↔ SinkFailsNext self.old.sink }
        ensures counted { SinkCountsOne self.old.sink self.new.sink }
        ensures most { TakesMost result (length piece.now) (most_taken self.old.sink) }
        ensures hung_up { self.new.hung_up ≡ self.old.hung_up }
    {
        self.sink.write(piece)
    }

    fn hang_up(&mut self)
        ensures taken { Took (Some self.old.sink.bytes.items) (Some self.new.sink.bytes.items) [] }
        ensures later { self.old.sink.plan.faults ≤ self.new.sink.plan.faults }

        // What this form promises beyond the trait.
        ensures sink { self.new.sink ≡ self.old.sink }
        ensures hung_up { self.new.hung_up ≡ true }
    {
        self.hung_up = true;
    }

    fn faults(&self) -> u64 {
        self.sink.faults()
    }
}
