//! The next tic of each place of a list.
ghost use Rattle.std.specs.Prelude.{◌≡◌, ◌+◌, ◌<◌, ◌≤◌, IfOk, IfSome, All, length, slice_set};
ghost use Rattle.trick_cycle.specs.Due.{IsInRange};
ghost use Rattle.trick_queue.specs.Calendar.{AreNext, FindsLeastOf, IsFirstEntry, tic_of};
ghost use Rattle.trick_queue.specs.Tree.{never};

use crate::steps::Steps;
use crate::tree::{NEVER, Tics};
use std::alloc::{AllocError, Global};
use std::marker::Model;
use std::sync::ledger::Ledger;
use trick_cycle::{Due, next_due};

/// Entries, each of a tic and a place, by rising tic and then by rising place, at most one for each place. Contracts
/// see the tic of each place.
#[derive(Drop)]
pub struct Calendar {
    tics: Tics,
}

impl Model for Calendar {
    ghost use Rattle.std.specs.Prelude.{◌≤◌, List, ℕ, length};

    ghost Value = { List ℕ };

    ghost view = { λ c. c.tics };

    ghost invariant = { λ c. length c.tics ≤ 65536 };
}

// The number that stands for a tic, or for none.
fn number_of(tic: Option<u64>) -> u64
    requires { IfSome tic (λ t. t < never) }
    ensures { result ≡ tic_of tic }
{
    match tic {
        Some(tic) => tic,
        None => NEVER,
    }
}

impl Calendar {
    /// A calendar with the least due tic not below `from` of each of these, where there is one. This call alone takes
    /// memory.
    pub fn new(alloc: Global, due: &[Due], from: u64) -> Result<Self, AllocError>
        requires few { length due.now ≤ 65536 }
        requires range { All IsInRange due.now }
        ensures { IfOk result (λ c. AreNext due.now from c) }
    {
        let mut tics = Tics::new(alloc, due.len())?;
        for place in 0..due.len() {
            tics.set(place, number_of(next_due(due[place], from)));
        }
        Ok(Calendar { tics })
    }

    /// The first entry. `None` where there is none. It takes one step.
    pub fn first<L: Ledger>(&self, steps: &mut Steps<L>) -> Option<(u64, u32)>
        ensures first { IsFirstEntry self.now result }
        ensures step { steps.new ≡ steps.old + 1 }
    {
        steps.tick();
        let least = self.tics.least();
        if least == NEVER {
            return None;
        }
        let place = self.tics.first_by(least)?;
        Some((least, place as u32))
    }

    /// The tic of the first entry. `None` where there is none.
    pub fn least(&self) -> Option<u64>
        ensures { FindsLeastOf self.now result }
    {
        let least = self.tics.least();
        if least < NEVER { Some(least) } else { None }
    }

    /// Replaces the entry of a place, where there is one: it has this tic, or no entry. Takes no memory and no step.
    pub fn put(&mut self, place: u32, tic: Option<u64>)
        requires place { place < length self.old }
        requires tic { IfSome tic (λ t. t < never) }
        ensures { self.new ≡ slice_set self.old place (tic_of tic) }
    {
        self.tics.set(place as usize, number_of(tic));
    }
}
