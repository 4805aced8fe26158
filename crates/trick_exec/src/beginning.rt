//! Where a run starts.

use std::alloc::Global;
use trick_model::State;

/// Where a run starts: its first state, and where the memory for the rest of it comes from.
#[derive(Drop)]
pub struct Start<M> {
    pub alloc: Global,
    pub state: State<M>,
}
