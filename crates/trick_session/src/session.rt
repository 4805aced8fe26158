//! Sessions as they begin, and their lists of variables.

ghost use Rattle.std.specs.Prelude.{◌≡◌, ◌++◌, ◌∷◌, [], OnErr, OnOk};
ghost use Rattle.trick_model.specs.Session.{joined, without};

use std::alloc::{AllocError, Global};
use std::mem;
use trick_base::{Items, Word};
use trick_lang::Cell;
use trick_model::Session;

/// A session that joins: without variables, with a cycle of 100,000 tics and copy mode 1, and not
/// paused. Takes no memory.
pub fn join(alloc: Global, number: u32) -> Session
    ensures { result ≡ joined number }
{
    Session {
        number,
        variables: Items::new(alloc),
        cycle: 100_000,
        paused: false,
        copy: 1,
        send: false,
        leaving: false,
    }
}

/// Removes every entry of a name.
pub(crate) fn remove(alloc: Global, variables: &mut Items<(Word, Option<Cell>)>, name: &Word)
    ensures { variables.new ≡ without name.now variables.old }
{
    let mut kept = mem::replace(variables, Items::new(alloc)).into_vec();
    kept.retain(|variable| variable.0.as_slice() != name.as_slice());
    *variables = Items::from_vec(kept);
}
