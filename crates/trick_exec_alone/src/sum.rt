//! The sum of all cells of a memory.

ghost use Rattle.std.specs.Prelude.{◌≡◌};
ghost use Rattle.trick_exec_alone.specs.Sum.{wrapped_sum};

use trick_lang::{Cell, Cells};

/// The sum of all cells of a memory, wrapped to 64 bits.
pub(crate) fn sum_of<M: Cells>(memory: &M) -> i64
    ensures { result ≡ wrapped_sum (M.numbers memory.now) }
{
    let mut sum: i64 = 0;
    for cell in 0..memory.len() {
        sum = sum.wrapping_add(memory.get(Cell(cell)));
    }
    sum
}
