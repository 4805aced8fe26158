//! What a run writes when it is over: its last state, its faults, and the journal's last line.

ghost use Rattle.std.specs.Prelude.{◌≡◌, ◌++◌, ◌∷◌, [], IfOk, OnOk, codes};
ghost use Rattle.trick_base.specs.Files.{Append};
ghost use Rattle.trick_model.specs.Checkpoint.{checkpoint_text, fault_list, faults_text};
ghost use Rattle.trick_model.specs.Files.{end_writes, journal_name};
ghost use Rattle.trick_model.specs.Journal.{last_line};
ghost use Rattle.trick_model.specs.PlanOf.{plan_of};
ghost use Rattle.trick_model.specs.State.{seen};
ghost use Rattle.trick_model.specs.Turn.{file_writes};
ghost use Rattle.trick_outside.specs.Does.{Does};
ghost use Rattle.trick_exec_tic.specs.Steps.{steps_of};

use itoa::Buffer;
use std::alloc::{AllocError, Global};
use trick_base::Word;
use trick_chkpt_printer::{print, push_fault};
use trick_journal::push_last_line;
use trick_lang::{Cells, JobFault};
use trick_model::{Faults, Plan, State};
use trick_outside::{Shelf, Stop, append, write_file};

// Writes `final.chk`, the checkpoint of the last state.
fn write_final<M: Cells, F: Shelf>(
    alloc: Global,
    plan: &Plan,
    state: &State<M>,
    shelf: &mut F,
) -> Result<(), Stop>
    ensures { Does F.Shelf shelf.old shelf.new result
        (steps_of (file_writes (codes "final.chk") (checkpoint_text (plan_of plan.now) (seen M.numbers state.now)))) }
{
    let Ok(name) = Word::from_bytes(alloc, b"final.chk") else {
        return Err(Stop::Memory);
    };
    let Ok(text) = print(alloc, plan, state) else {
        return Err(Stop::Memory);
    };
    write_file(shelf, &name, &text)
}

// Appends a line for each fault.
fn push_faults(text: &mut Vec<u8>, plan: &Plan, faults: &[JobFault]) -> Result<(), AllocError>
    ensures { OnOk result (text.new.items ≡ text.old.items ++ fault_list (plan_of plan.now) faults.now) }
{
    for fault in faults {
        push_fault(text, plan, fault)?;
        text.extend_from_slice(b"\n")?;
    }
    Ok(())
}

// The text of the faults.
fn faults_text(alloc: Global, plan: &Plan, faults: &Faults) -> Result<Vec<u8>, AllocError>
    ensures { IfOk result (λ text. text.items ≡ faults_text (plan_of plan.now) faults.now) }
{
    let mut text = Vec::new(alloc);
    push_faults(&mut text, plan, faults.first())?;
    text.extend_from_slice(b"total ")?;
    text.extend_from_slice(Buffer::new().format(faults.count()).as_bytes())?;
    text.extend_from_slice(b"\n")?;
    Ok(text)
}

// Writes `faults.txt`.
fn write_faults<F: Shelf>(
    alloc: Global,
    plan: &Plan,
    faults: &Faults,
    shelf: &mut F,
) -> Result<(), Stop>
    ensures { Does F.Shelf shelf.old shelf.new result
        (steps_of (file_writes (codes "faults.txt") (faults_text (plan_of plan.now) faults.now))) }
{
    let Ok(name) = Word::from_bytes(alloc, b"faults.txt") else {
        return Err(Stop::Memory);
    };
    let Ok(text) = faults_text(alloc, plan, faults) else {
        return Err(Stop::Memory);
    };
    write_file(shelf, &name, &text)
}

// The last line of a journal.
fn last_text(alloc: Global, turn: u64) -> Result<Vec<u8>, AllocError>
    ensures { IfOk result (λ text. text.items ≡ last_line turn) }
{
    let mut text = Vec::new(alloc);
    push_last_line(&mut text, turn)?;
    Ok(text)
}

// Adds the journal's last line.
fn end_journal<F: Shelf>(alloc: Global, turn: u64, shelf: &mut F) -> Result<(), Stop>
    ensures { Does F.Shelf shelf.old shelf.new result (steps_of (Append journal_name (last_line turn) ∷ [])) }
{
    let Ok(name) = Word::from_bytes(alloc, b"journal.txt") else {
        return Err(Stop::Memory);
    };
    let Ok(text) = last_text(alloc, turn) else {
        return Err(Stop::Memory);
    };
    append(shelf, &name, &text)
}

/// Ends the files of a run whose last state this is: `final.chk`, `faults.txt`, and the journal's last
/// line.
pub fn end_files<M: Cells, F: Shelf>(
    alloc: Global,
    plan: &Plan,
    state: &State<M>,
    shelf: &mut F,
) -> Result<(), Stop>
    ensures { Does F.Shelf shelf.old shelf.new result
        (steps_of (end_writes (plan_of plan.now) (seen M.numbers state.now))) }
{
    write_final(alloc, plan, state, shelf)?;
    write_faults(alloc, plan, &state.faults, shelf)?;
    end_journal(alloc, state.turn, shelf)
}
