//! What a run is lent.

ghost use Rattle.std.specs.Prelude.{◌≡◌};

use std::alloc::Global;
use std::sync::ledger::Ledger;
use trick_exec_frame::Equipment;
use trick_exec_tic::Workers;

/// What a run keeps beside its world: where its memory comes from, its equipment, and at how many run frames
/// the round of each thread beside the tics has stayed unpublished.
#[derive(Drop)]
pub struct Keeping<L: Ledger> {
    pub alloc: Global,
    pub equipment: Equipment<L>,
    pub waits: Vec<u64>,
}

/// A run, as what it is lent: where its memory comes from, what it keeps beside its world, and the shelf, the
/// workers and the source that it works with.
#[derive(Drop)]
pub struct Run<'a, F, H, P, T, L: Ledger> {
    pub alloc: Global,
    pub equipment: &'a mut Equipment<L>,
    pub waits: &'a mut Vec<u64>,
    pub shelf: &'a mut F,
    pub workers: &'a mut Workers<H, P>,
    pub turns: &'a mut T,
}

impl<'a, F, H, P, T, L: Ledger> Run<'a, F, H, P, T, L> {
    /// The run that is lent these.
    pub fn new(
        keeping: &'a mut Keeping<L>,
        shelf: &'a mut F,
        workers: &'a mut Workers<H, P>,
        turns: &'a mut T,
    ) -> Self
        ensures same_shelf { result.shelf.ghost_name ≡ shelf.entry.ghost_name }
        ensures same_workers { result.workers.ghost_name ≡ workers.entry.ghost_name }
        ensures same_turns { result.turns.ghost_name ≡ turns.entry.ghost_name }
        ensures equipment { result.equipment.now ≡ keeping.old.equipment }
        ensures waits { result.waits.now ≡ keeping.old.waits }
        ensures shelf { result.shelf.now ≡ shelf.old }
        ensures workers { result.workers.now ≡ workers.old }
        ensures turns { result.turns.now ≡ turns.old }
    {
        Run {
            alloc: keeping.alloc,
            equipment: &mut keeping.equipment,
            waits: &mut keeping.waits,
            shelf,
            workers,
            turns,
        }
    }
}
