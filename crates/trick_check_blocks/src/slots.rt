//! How many slots are enough for blocks.

ghost use Rattle.std.specs.Prelude.{◌≡◌, ◌+◌, max, IfOk};
ghost use Rattle.trick_check_blocks.specs.Methods.{all_slots, block_slots, code_slots};
ghost use Rattle.trick_lang.specs.TreeOf.{code_list, code_of, codes_of};

use std::alloc::AllocError;
use trick_lang::{Block, Stmt};

fn with_slot(slot: u32, so_far: u32) -> Result<u32, AllocError>
    ensures { IfOk result (λ slots. slots ≡ max (slot + 1) so_far) }
{
    match slot.checked_add(1) {
        None => Err(AllocError),
        Some(more) => Ok(more.max(so_far)),
    }
}

fn slots_of_statement(s: &Stmt, so_far: u32) -> Result<u32, AllocError>
    ensures { IfOk result (λ slots. slots ≡ code_slots (code_of s.now) so_far) }
{
    match s {
        Stmt::Declare {
            line: _,
            slot,
            scalar: _,
            value: _,
        } => with_slot(*slot, so_far),
        Stmt::For {
            slot,
            from: _,
            bound: _,
            block: _,
        } => with_slot(*slot, so_far),
        _ => Ok(so_far),
    }
}

fn slots_of_all(statements: &[Stmt], so_far: u32) -> Result<u32, AllocError>
    ensures { IfOk result (λ slots. slots ≡ all_slots (code_list statements.now) so_far) }
{
    let mut slots = so_far;
    for s in statements {
        slots = slots_of_statement(s, slots)?;
    }
    Ok(slots)
}

/// How many slots are enough for blocks, where so many are for those before them.
pub fn slots_of_blocks(blocks: &[Block], so_far: u32) -> Result<u32, AllocError>
    ensures { IfOk result (λ slots. slots ≡ block_slots (codes_of blocks.now) so_far) }
{
    let mut slots = so_far;
    for block in blocks {
        slots = slots_of_all(block.statements.as_slice(), slots)?;
    }
    Ok(slots)
}
