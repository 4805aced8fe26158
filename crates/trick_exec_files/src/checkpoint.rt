//! The checkpoint of a turn.

ghost use Rattle.std.specs.Prelude.{◌≡◌, IfOk};
ghost use Rattle.trick_model.specs.PlanOf.{plan_of};
ghost use Rattle.trick_model.specs.State.{seen};
ghost use Rattle.trick_model.specs.Turn.{checkpoint_name, checkpoint_writes};
ghost use Rattle.trick_outside.specs.Does.{Does};
ghost use Rattle.trick_exec_tic.specs.Steps.{steps_of};

use itoa::Buffer;
use std::alloc::{AllocError, Global};
use trick_base::{Items, Word};
use trick_chkpt_printer::print;
use trick_lang::Cells;
use trick_model::{Plan, State};
use trick_outside::{Shelf, Stop, write_file};

// The name of the checkpoint of a turn: `chkpnt_<turn>.chk`.
fn checkpoint_name(alloc: Global, turn: u64) -> Result<Word, AllocError>
    ensures { IfOk result (λ name. name ≡ checkpoint_name turn) }
{
    let mut name = Vec::new(alloc);
    name.extend_from_slice(b"chkpnt_")?;
    name.extend_from_slice(Buffer::new().format(turn).as_bytes())?;
    name.extend_from_slice(b".chk")?;
    Ok(Items::from_vec(name))
}

/// Writes the checkpoint of a state under the number of its turn, where it was asked for.
pub fn write_checkpoint<M: Cells, F: Shelf>(
    alloc: Global,
    plan: &Plan,
    asked: bool,
    state: &State<M>,
    shelf: &mut F,
) -> Result<(), Stop>
    ensures { Does F.Shelf shelf.old shelf.new result
        (steps_of (checkpoint_writes (plan_of plan.now) asked (seen M.numbers state.now))) }
{
    if !asked {
        return Ok(());
    }
    let Ok(name) = checkpoint_name(alloc, state.turn) else {
        return Err(Stop::Memory);
    };
    let Ok(text) = print(alloc, plan, state) else {
        return Err(Stop::Memory);
    };
    write_file(shelf, &name, &text)
}
