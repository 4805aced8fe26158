//! What a value behind a turn stands for, and what a turn adds to that.
ghost use Rattle.std.specs.Prelude.{ℕ, List, Option, None};

use std::marker::{Brand, PhantomData};

/// A value that stands for a list of entries: it is in the state that they leave, one after another.
///
/// The list itself is not stored. It is the history of a `TurnLock`, and only proofs speak of it.
pub trait Keeps {
    /// What one turn does to the value. No entry needs to be made by code.
    type Entry;

    // the value is in the state that these entries leave
    ghost stands: { Self → List Self.Entry → Type 0 };

    // the number of the pass whose turn it was
    ghost seat: { Self.Entry → ℕ };
}

/// Whom a release wakes of those that rest.
#[derive(Clone, Copy, Debug, PartialEq, Eq)]
pub enum Wakes {
    /// Nobody: nobody waits for what the turn added, if it added anything.
    Nobody,
    /// Those that rest until something was added.
    Resting,
    /// Those, and all that rest until something begins.
    Everybody,
}

/// What a turn adds, as far as those that rest are concerned.
pub trait Stirs {
    /// Whom a release wakes.
    const WAKES: Wakes;
}

impl Stirs for Brand {
    const WAKES: Wakes = Wakes::Everybody;
}

impl Stirs for Nothing {
    const WAKES: Wakes = Wakes::Nobody;
}

/// What a turn adds to a history of entries `E`: nothing, or one entry.
///
/// A caller that passes `Brand` picks it at the call, so it can hold what is known only then.
pub trait Adds<E>: Stirs {
    ghost tells: { Option E };
}

impl<E> Adds<E> for Brand {
    ghost tells = { None };
}

/// The turn adds nothing.
pub struct Nothing;

impl<E> Adds<E> for Nothing {
    ghost tells = { None };
}

/// The turn adds what `T` says, and nobody waits for that.
pub struct Quiet<T>(PhantomData<T>);

impl<T> Stirs for Quiet<T> {
    const WAKES: Wakes = Wakes::Nobody;
}

impl<E, T: Adds<E>> Adds<E> for Quiet<T> {
    ghost tells = { T.tells };
}

/// The turn adds what `T` says. Nothing begins by that, so that only those wait for it that rest until something was
/// added.
pub struct Progress<T>(PhantomData<T>);

impl<T> Stirs for Progress<T> {
    const WAKES: Wakes = Wakes::Resting;
}

impl<E, T: Adds<E>> Adds<E> for Progress<T> {
    ghost tells = { T.tells };
}
