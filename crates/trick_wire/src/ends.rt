//! The calls of the two ends of a queue.

ghost use Rattle.std.specs.Prelude.{◌≡◌, ◌++◌, ◌∷◌, ◌<◌, [], List, None, IfErr, IfOk, IfSome, OnErr, OnOk};
ghost use Rattle.crossbeam_queue.specs.Fifo.{Held};
ghost use Rattle.trick_wire.specs.Ends.{AreEnds, HasBoth, HasWaiting, IsSamePutter, IsSameTaker};
ghost use Rattle.trick_wire.specs.Ends.{given_to, known_by, put_by, room_of, taken_by};
ghost use Rattle.trick_wire.specs.Rule.{Knows};

use crate::queue::{Putter, Queue, Shared, Taker};
use crate::rule::{Puts, Roles, Takes};
use std::alloc::{AllocError, Global};
use std::sync::atomic::{AtomicBool, Ordering};
use std::sync::{Arc, Wait};
use trick_turn::Bell;

/// A queue with room for `most` items, as its two ends.
pub fn channel<T: Drop>(alloc: Global, most: usize) -> Result<(Putter<T>, Taker<T>), AllocError>
    requires room { 0 < most }
    ensures ends { IfOk result (λ ends. AreEnds ends.0 ends.1) }
    ensures room { IfOk result (λ ends. room_of ends.0 ≡ most) }
    ensures put { IfOk result (λ ends. put_by ends.0 ≡ []) }
    ensures taken { IfOk result (λ ends. taken_by ends.1 ≡ []) }
{
    let (queue, mut pass) = Queue::<T>::ruled(alloc, most)?;
    let theirs = queue.another::<Roles>(&mut pass);
    let is_closed = AtomicBool::new(false);
    let bell = Bell::new();
    let shared = Arc::new(
        alloc,
        Shared {
            queue,
            is_closed,
            bell,
        },
    )?;
    let other = Arc::try_clone(&shared)?;
    Ok((
        Putter { shared, pass },
        Taker {
            shared: other,
            pass: theirs,
        },
    ))
}

impl<T> Shared<T> {
    // Closes the queue, and wakes those that rest on it.
    fn close(&self) {
        self.is_closed.store(true, Ordering::SeqCst);
        self.bell.ring();
    }

    fn is_closed(&self) -> bool {
        self.is_closed.load(Ordering::SeqCst)
    }
}

impl<T: Drop> Putter<T> {
    /// Puts an item after those that were put before, and wakes the other end where it rests. The item comes back only
    /// where the queue was full at one moment of the call. It does not wait for room.
    pub fn push<R: Wait>(&mut self, rt: &R, item: T) -> Result<(), T>
        ensures queue { IsSamePutter self.old self.new }
        ensures put { OnOk result (put_by self.new ≡ put_by self.old ++ item ∷ []) }
        ensures kept { OnErr result (put_by self.new ≡ put_by self.old) }
        ensures back { IfErr result (λ back. back ≡ item) }
        ensures full { OnErr result (HasWaiting (put_by self.old) (room_of self.old)) }
    {
        let pushed = self
            .shared
            .queue
            .push_as::<Puts, R>(rt, &mut self.pass, item);
        if pushed.is_ok() {
            self.shared.bell.ring();
        }
        pushed
    }

    /// Closes the queue, and wakes the other end where it rests. What was put can still be taken.
    pub fn close(&self) {
        self.shared.close();
    }

    /// Whether the queue was closed by one of its ends.
    pub fn is_closed(&self) -> bool {
        self.shared.is_closed()
    }

    /// A mark to rest on. Take it first, then look whether there is room or the queue was closed.
    pub fn mark(&self) -> u64 {
        self.shared.bell.mark()
    }

    /// Sleeps until after the mark an item was put or taken, or the queue was closed.
    pub fn rest<R: Wait>(&self, rt: &R, mark: u64) {
        self.shared.bell.rest(rt, mark);
    }
}

impl<T: Drop> Taker<T> {
    /// Takes the item that was put first of those that wait, and wakes the other end where it rests. `None` comes only
    /// where the queue was empty at one moment of the call. It does not wait for an item.
    pub fn pop<R: Wait>(&mut self, rt: &R) -> Option<T>
        ensures queue { IsSameTaker self.old self.new }
        ensures taken { IfSome result (λ item. taken_by self.new ≡ taken_by self.old ++ item ∷ []) }
        ensures kept { result ≡ None → taken_by self.new ≡ taken_by self.old }
        ensures empty { result ≡ None → Held 0 (Knows (known_by self.old)) }
        ensures all { result ≡ None → HasBoth self.old → given_to self.old ≡ taken_by self.old }
        ensures both { HasBoth self.old → HasBoth self.new }
        ensures given { given_to self.new ≡ given_to self.old }
    {
        let popped = self.shared.queue.pop_as::<Takes, R>(rt, &mut self.pass);
        if popped.is_some() {
            self.shared.bell.ring();
        }
        popped
    }

    /// Takes the other end in. From then on it is known what was put: what was taken, and then what is left.
    pub fn join(&mut self, other: Putter<T>)
        requires { AreEnds other self.old }
        ensures queue { IsSameTaker self.old self.new }
        ensures both { HasBoth self.new }
        ensures given { given_to self.new ≡ put_by other }
        ensures taken { taken_by self.new ≡ taken_by self.old }
        ensures left { (items : List T) × (put_by other ≡ taken_by self.old ++ items) }
    {
        let Putter {
            shared: _shared,
            pass,
        } = other;
        self.shared.queue.absorb::<Roles>(&mut self.pass, pass);
        self.shared.queue.learn_as::<Takes>(&mut self.pass);
    }

    // With both ends: that what was put is what was taken, and then what is left.
    pub(crate) fn learn(&mut self)
        ensures queue { IsSameTaker self.old self.new }
        ensures both { HasBoth self.old → HasBoth self.new }
        ensures given { given_to self.new ≡ given_to self.old }
        ensures taken { taken_by self.new ≡ taken_by self.old }
        ensures left { HasBoth self.old → (items : List T) × (given_to self.old ≡ taken_by self.old ++ items) }
    {
        self.shared.queue.learn_as::<Takes>(&mut self.pass);
    }

    /// Closes the queue, and wakes the other end where it rests. What was put can still be taken.
    pub fn close(&self) {
        self.shared.close();
    }

    /// Whether the queue was closed by one of its ends.
    pub fn is_closed(&self) -> bool {
        self.shared.is_closed()
    }

    /// A mark to rest on. Take it first, then look whether an item waits or the queue was closed.
    pub fn mark(&self) -> u64 {
        self.shared.bell.mark()
    }

    /// Sleeps until after the mark an item was put or taken, or the queue was closed.
    pub fn rest<R: Wait>(&self, rt: &R, mark: u64) {
        self.shared.bell.rest(rt, mark);
    }
}
