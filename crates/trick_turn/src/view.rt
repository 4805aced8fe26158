//! What a seat knows.
use std::collections::LinkedList;

/// What a seat of the lock knows. Only proofs have such a value.
pub struct View<E> {
    /// Counted from 1. A seat that was joined to another has 0.
    pub number: u64,
    /// It has the turn.
    pub holding: bool,
    /// The part of the history that it has seen, a prefix.
    pub seen: LinkedList<E>,
    /// A prefix of `seen`: what one of two seats had seen when they were joined.
    pub beside: LinkedList<E>,
    /// The entries of the history that it added.
    pub own: LinkedList<E>,
    /// How often it found the turn held.
    pub misses: u64,
    /// The number that it found at the last miss.
    pub found: u64,
    /// At the first seat: how many seats were made.
    pub made: u64,
}
