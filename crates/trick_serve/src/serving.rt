//! What a served run is given, and what it comes to.

use std::alloc::Global;
use std::sync::Arc;
use trick_exec_alone::Summary;
use trick_outside::Stop;

/// What a served run works with, beside its plan, its first state and its shelf.
#[derive(Drop)]
pub struct Serving<D, S, G, R> {
    /// The runtime.
    pub rt: R,
    /// What gives the clients.
    pub door: D,
    /// What admits the threads of the plan and those of the clients.
    pub spawner: S,
    /// What each worker passes between the take of a job and its commit.
    pub gate: Arc<G, Global>,
}

/// What a served run comes to.
#[derive(Drop)]
pub struct Service<D, S> {
    /// What is said of its last state, or why it stopped: at `Stop::Shelf` the shelf failed, and at `Stop::Memory`
    /// there was no memory.
    pub ended: Result<Summary, Stop>,
    /// How many sessions joined in it.
    pub sessions: u64,
    /// The door, which has the links of all clients back.
    pub door: D,
    /// The spawner, whose count has risen for each start that was refused.
    pub spawner: S,
}

/// The door of a run, and what its clients are served with.
#[derive(Drop)]
pub(crate) struct Reception<D, S, R> {
    pub(crate) rt: R,
    pub(crate) door: D,
    pub(crate) spawner: S,
}
