//! A client that does not read.

ghost use Rattle.std.specs.Prelude.{◌≡◌, []};

use std::sync::atomic::{AtomicBool, Ordering};
use std::sync::{Arc, Wait};
use trick_outside::{LinkOut, MemoryOut, Taken1};
use trick_turn::Bell;

/// Whether a link was asked to write, and whether it may.
#[derive(Drop)]
pub struct Hold {
    is_asked: AtomicBool,
    is_free: AtomicBool,
    bell: Bell,
}

impl Hold {
    /// A link that was not asked yet, and may not write.
    pub fn new() -> Hold {
        Hold {
            is_asked: AtomicBool::new(false),
            is_free: AtomicBool::new(false),
            bell: Bell::new(),
        }
    }

    // Rests until a flag is set.
    fn wait<R: Wait>(&self, rt: &R, flag: &AtomicBool) {
        for _ in rt.forever() {
            let mark = self.bell.mark();
            if flag.load(Ordering::SeqCst) {
                return;
            }
            self.bell.rest(rt, mark);
        }
    }

    fn set(&self, flag: &AtomicBool) {
        flag.store(true, Ordering::SeqCst);
        self.bell.ring();
    }

    /// Rests until the link was asked to write.
    pub fn wait_until_asked<R: Wait>(&self, rt: &R) {
        self.wait(rt, &self.is_asked);
    }

    /// Lets the link write.
    pub fn free(&self) {
        self.set(&self.is_free);
    }
}

/// A link that takes nothing until it is free.
#[derive(Drop)]
pub struct HeldOut<R> {
    pub rt: R,
    pub link: MemoryOut,
    pub hold: Arc<Hold>,
}

impl<R: Wait> LinkOut for HeldOut<R> {
    ghost use Rattle.trick_outside.specs.Links.{Took, bytes_taken};

    ghost holds = { λ held. ⟦<MemoryOut as LinkOut>⟧.holds held.link };

    ghost failures = { λ held. ⟦<MemoryOut as LinkOut>⟧.failures held.link };

    fn write(&mut self, piece: &[u8]) -> Taken1 {
        self.hold.set(&self.hold.is_asked);
        self.hold.wait(&self.rt, &self.hold.is_free);
        self.link.write(piece)
    }

    fn hang_up(&mut self) {
        self.link.hang_up();
    }

    fn faults(&self) -> u64 {
        self.link.faults()
    }
}
