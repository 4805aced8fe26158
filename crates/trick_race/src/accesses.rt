// What several jobs of a program may write.

ghost use Rattle.std.specs.Prelude.{◌≡◌, ℕ, ◌↔◌, ◌<◌, IfOk, IsTrue, length};
ghost use Rattle.trick_access.specs.Accesses.{writes_of};
ghost use Rattle.trick_race.specs.Accesses.{IsInOrder, IsWrittenBy, has};

use crate::cell_set::CellSet;
use std::alloc::{AllocError, Global};
use trick_access::Access;

// The cells that the jobs of a set may write.
pub(crate) fn written_by(
    alloc: Global,
    accesses: &[Access],
    jobs: &[bool],
    cells: usize,
) -> Result<CellSet, AllocError>
    requires jobs { length jobs.now ≡ length accesses.now }
    requires in_order { (k : ℕ) → k < length accesses.now → IsInOrder cells (writes_of accesses.now k) }
    ensures { IfOk result (λ set. (c : ℕ) → IsTrue (has set c) ↔ IsWrittenBy accesses.now jobs.now c) }
{
    let mut set = CellSet::new(alloc, cells)?;
    for job in 0..accesses.len() {
        if jobs[job] {
            set.add(accesses[job].writes.as_slice());
        }
    }
    Ok(set)
}
