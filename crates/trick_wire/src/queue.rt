//! The two ends of a queue.

ghost use Rattle.std.specs.Prelude.{◌≡◌, true};
ghost use Rattle.std.specs.Arc.{arc_value};
ghost use Rattle.crossbeam_queue.specs.Passes.{IsPassOf, view};

use crate::rule::{InOrder, Side};
use crossbeam_queue::{Pass, RuledArrayQueue};
use std::alloc::Global;
use std::sync::Arc;
use std::sync::atomic::AtomicBool;
use trick_turn::Bell;

pub(crate) type Queue<T> = RuledArrayQueue<T, Side<T>, InOrder>;

/// What the two ends share: the queue, whether one of them closed it, and a bell that is rung at each put, at each
/// take and when it is closed.
#[derive(Drop)]
pub struct Shared<T> {
    pub(crate) queue: Queue<T>,
    pub(crate) is_closed: AtomicBool,
    pub(crate) bell: Bell,
}

/// The end of a queue that puts. What it has put is the one history of the queue: no other end puts.
#[derive(Drop)]
pub struct Putter<T> {
    pub(crate) shared: Arc<Shared<T>, Global>,
    pub(crate) pass: Pass<T, Side<T>>,
    pub ghost tied: { IsPassOf (arc_value shared).queue pass },
    pub ghost puts: { (view pass).puts ≡ true },
}

/// The end of a queue that takes. No other end takes.
#[derive(Drop)]
pub struct Taker<T> {
    pub(crate) shared: Arc<Shared<T>, Global>,
    pub(crate) pass: Pass<T, Side<T>>,
    pub ghost tied: { IsPassOf (arc_value shared).queue pass },
    pub ghost takes: { (view pass).takes ≡ true },
}
