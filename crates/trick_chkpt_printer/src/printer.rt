//! Printing.

ghost use Rattle.std.specs.Prelude.{◌≡◌, ◌++◌, IfOk, OnOk};
ghost use Rattle.trick_chkpt_printer.specs.Parts.{first_lines, middle_lines, end_lines};
ghost use Rattle.trick_model.specs.Checkpoint.{checkpoint_text, mode_text};
ghost use Rattle.trick_model.specs.PlanOf.{plan_of};
ghost use Rattle.trick_model.specs.State.{seen};

use crate::cells::{push_flags, push_memory};
use crate::faults::push_faults;
use crate::line::{push_line, push_number_line};
use crate::records::{push_groups, push_records};
use std::alloc::{AllocError, Global};
use trick_lang::Cells;
use trick_model::{Mode, Plan, State};

fn mode_word(mode: Mode) -> &'static [u8]
    ensures { result.now ≡ mode_text mode }
{
    match mode {
        Mode::Run => b"Run",
        Mode::Freeze => b"Freeze",
        Mode::Shutdown => b"Shutdown",
    }
}

// Appends the lines before those of the cells.
fn push_first<M: Cells>(text: &mut Vec<u8>, state: &State<M>) -> Result<(), AllocError>
    ensures { OnOk result (text.new.items ≡ text.old.items ++ first_lines (seen M.numbers state.now)) }
{
    push_line(text, b"checkpoint", b"1")?;
    push_number_line(text, b"turn", state.turn)?;
    push_number_line(text, b"tic", state.tic)?;
    push_number_line(text, b"limit", state.limit)?;
    push_line(text, b"mode", mode_word(state.mode))
}

// Appends the lines of the cells, and of the flags of jobs and events.
fn push_middle<M: Cells>(
    text: &mut Vec<u8>,
    plan: &Plan,
    state: &State<M>,
) -> Result<(), AllocError>
    ensures { OnOk result (text.new.items ≡ text.old.items ++
        middle_lines (plan_of plan.now) (seen M.numbers state.now)) }
{
    push_memory(text, plan.program.cells.as_slice(), &state.memory)?;
    push_flags(text, b"job", state.jobs.on.as_slice())?;
    push_flags(text, b"event", state.events.on.as_slice())?;
    push_groups(
        text,
        plan.groups.as_slice(),
        state.groups.on.as_slice(),
        state.last.as_slice(),
    )
}

// Appends the lines of the records and of the faults, and the last line.
fn push_end<M: Cells>(
    alloc: Global,
    text: &mut Vec<u8>,
    plan: &Plan,
    state: &State<M>,
) -> Result<(), AllocError>
    ensures { OnOk result (text.new.items ≡ text.old.items ++ end_lines (plan_of plan.now) (seen M.numbers state.now)) }
{
    push_records(alloc, text, plan, state.taken.as_slice())?;
    push_number_line(text, b"faults", state.faults.count())?;
    push_faults(text, plan, state.faults.first())?;
    text.extend_from_slice(b"end;\n")
}

/// The checkpoint of a state of a plan. docs/FORMATS.md has its form. The only refusal is for want
/// of memory.
pub fn print<M: Cells>(alloc: Global, plan: &Plan, state: &State<M>) -> Result<Vec<u8>, AllocError>
    ensures { IfOk result (λ text. text.items ≡ checkpoint_text (plan_of plan.now) (seen M.numbers state.now)) }
{
    let mut text = Vec::new(alloc);
    push_first(&mut text, state)?;
    push_middle(&mut text, plan, state)?;
    push_end(alloc, &mut text, plan, state)?;
    Ok(text)
}
