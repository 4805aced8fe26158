//! A bell, by which threads sleep until something was added, behind a lock or to a queue.
use std::sync::Wait;
use std::sync::atomic::AtomicU64;
use std::sync::atomic::Ordering::SeqCst;

/// A count of rings, with an address of its own to sleep on. No clause speaks of it, and no promise rests on it.
///
/// Take the mark first, then look at what others add to, and rest where there is nothing to do yet. Who adds rings
/// after that, so what was added after the look ends the rest.
///
/// No wake is lost. A thread that rests raises `resting` before it parks, and the park sleeps only while the count is
/// the one that the thread saw. `ring` raises the count first and reads `resting` after that. So where a park still
/// finds the old count, `ring` reads that somebody rests, and wakes all who do.
#[derive(Drop)]
pub struct Bell {
    rings: AtomicU64,
    // the threads that sleep on `rings`, or are about to
    resting: AtomicU64,
}

impl Bell {
    /// A bell that was never rung.
    pub fn new() -> Bell {
        Bell {
            rings: AtomicU64::new(0),
            resting: AtomicU64::new(0),
        }
    }

    /// How often it was rung so far. A mark to rest on.
    pub fn mark(&self) -> u64 {
        self.rings.load(SeqCst)
    }

    /// Sleeps until the count is past the mark.
    pub fn rest<R: Wait>(&self, rt: &R, mark: u64) {
        for _ in rt.forever() {
            let rings = self.mark();
            if rings > mark {
                return;
            }
            self.resting.fetch_add(1, SeqCst);
            self.rings.park(rt, low_half(rings));
            self.resting.fetch_sub(1, SeqCst);
        }
    }

    /// Counts one more, and wakes all that rest.
    pub fn ring(&self) {
        self.rings.fetch_add(1, SeqCst);
        if self.resting.load(SeqCst) != 0 {
            self.rings.wake_all();
        }
    }
}

/// The part of a word that a park compares.
pub(crate) fn low_half(word: u64) -> u32 {
    (word & 0xffff_ffff) as u32
}
