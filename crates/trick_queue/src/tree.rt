//! The least of tics over a tree of pairs, in lists: each inner node has the less of its children's
//! numbers, so that the first of the tics that are not later than one is found from the root.

ghost use Rattle.std.specs.Prelude.{◌≡◌, ◌+◌, ◌/◌, ◌<◌, ◌≤◌, ◌^◌, IfOk, length, replicate, slice_set};
ghost use Rattle.trick_queue.specs.Tree.{AreRight, AreRightBut, FindsFirst, IsChild, IsLeast, IsPower, IsShaped, IsTree, low_of, never};

use std::alloc::{AllocError, Global};
use std::marker::Model;

/// The tic of what is never due.
pub const NEVER: u64 = u64::MAX;

// The number of a node.
fn low(lows: &[u64], tics: &[u64], node: usize) -> u64
    ensures { result ≡ low_of lows.now tics.now node }
{
    if node < lows.len() {
        return lows[node];
    }
    match tics.get(node - lows.len()) {
        Some(tic) => *tic,
        None => NEVER,
    }
}

// The least of the tics.
fn least(lows: &[u64], tics: &[u64]) -> u64
    requires { IsTree lows.now tics.now }
    ensures { IsLeast tics.now result }
{
    low(lows, tics, 1)
}

// The child of a node that has the first leaf that is not later.
fn child(lows: &[u64], tics: &[u64], node: usize, tic: u64) -> usize
    requires node { node < length lows.now }
    requires small { length lows.now ≤ 2 ^ 32 }
    ensures { IsChild lows.now tics.now tic node result }
{
    let left = 2 * node;
    if low(lows, tics, left) <= tic {
        left
    } else {
        left + 1
    }
}

// The first place whose tic is not later than this one.
fn first_by(lows: &[u64], tics: &[u64], tic: u64) -> Option<usize>
    requires tree { IsTree lows.now tics.now }
    requires tic { tic < never }
    ensures { FindsFirst tics.now tic result }
{
    if tic < low(lows, tics, 1) {
        return None;
    }
    let mut node = 1;
    while node < lows.len() {
        node = child(lows, tics, node, tic);
    }
    Some(node - lows.len())
}

// Makes a tree whole again in which one place may have another tic.
fn mend(lows: &mut [u64], tics: &[u64], place: usize)
    requires shaped { IsShaped lows.old tics.now }
    requires place { place < length tics.now }
    requires right { AreRightBut lows.old tics.now ((length lows.old + place) / 2) }
    ensures { IsTree lows.new tics.now }
{
    let mut node = (lows.len() + place) / 2;
    while node > 0 {
        let left = low(lows, tics, 2 * node);
        let right = low(lows, tics, 2 * node + 1);
        lows[node] = left.min(right);
        node /= 2;
    }
}

/// Tics by place, over a tree. Contracts see the list of the tics.
#[derive(Drop)]
pub struct Tics {
    tics: Vec<u64>,
    lows: Vec<u64>,
}

impl Model for Tics {
    ghost use Rattle.std.specs.Prelude.{List, ℕ};
    ghost use Rattle.trick_queue.specs.Tree.{IsTree};

    ghost Value = { List ℕ };

    ghost view = { λ t. t.tics.items };

    ghost invariant = { λ t. IsTree t.lows.items t.tics.items };
}

// How many inner nodes let so many leaves stand in one row.
fn inner_nodes(places: usize) -> usize
    requires { places ≤ 65536 }
    ensures power { IsPower result }
    ensures enough { places ≤ result }
    ensures small { result ≤ 131072 }
{
    let mut nodes = 1;
    while nodes < places {
        nodes += nodes;
    }
    nodes
}

impl Tics {
    /// So many places, each [`NEVER`].
    pub fn new(alloc: Global, places: usize) -> Result<Self, AllocError>
        requires { places ≤ 65536 }
        ensures { IfOk result (λ t. t ≡ replicate places never) }
    {
        let nodes = inner_nodes(places);
        let tics = vec![in alloc; NEVER; places]?;
        let lows = vec![in alloc; NEVER; nodes]?;
        Ok(Tics { tics, lows })
    }

    /// The least of the tics.
    pub fn least(&self) -> u64
        ensures { IsLeast self.now result }
    {
        least(&self.lows, &self.tics)
    }

    /// The first place whose tic is not later than this one.
    pub fn first_by(&self, tic: u64) -> Option<usize>
        requires { tic < never }
        ensures { FindsFirst self.now tic result }
    {
        first_by(&self.lows, &self.tics, tic)
    }

    /// Gives a place another tic. It costs the height of the tree.
    pub fn set(&mut self, place: usize, tic: u64)
        requires { place < length self.old }
        ensures { self.new ≡ slice_set self.old place tic }
    {
        self.tics[place] = tic;
        mend(&mut self.lows, &self.tics, place);
    }
}
