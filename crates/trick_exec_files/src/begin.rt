//! What a run writes first: its journal, and each log with its header.

ghost use Rattle.std.specs.Prelude.{◌≡◌, ◌<◌, IfOk, flat_map, length};
ghost use Rattle.trick_model.specs.Files.{journal_name, start_writes};
ghost use Rattle.trick_model.specs.Journal.{first_lines};
ghost use Rattle.trick_model.specs.PlanOf.{plan_of};
ghost use Rattle.trick_model.specs.Records.{header as header_of, log_name};
ghost use Rattle.trick_model.specs.Turn.{file_writes};
ghost use Rattle.trick_model.specs.declared.group.Group.{Group as GroupValue};
ghost use Rattle.trick_outside.specs.Does.{Does};
ghost use Rattle.trick_record.specs.Added.{group_at};
ghost use Rattle.trick_exec_tic.specs.Due.{AreLogsOf};
ghost use Rattle.trick_exec_tic.specs.Steps.{steps_of};

use std::alloc::{AllocError, Global};
use trick_base::Word;
use trick_journal::push_first_lines;
use trick_model::Plan;
use trick_outside::{Shelf, Stop, write_file};
use trick_record::header;

// The first lines of a journal that begins at a turn.
fn first_text(alloc: Global, turn: u64) -> Result<Vec<u8>, AllocError>
    ensures { IfOk result (λ text. text.items ≡ first_lines turn) }
{
    let mut text = Vec::new(alloc);
    push_first_lines(&mut text, turn)?;
    Ok(text)
}

// Begins the journal.
fn begin_journal<F: Shelf>(alloc: Global, turn: u64, shelf: &mut F) -> Result<(), Stop>
    ensures { Does F.Shelf shelf.old shelf.new result (steps_of (file_writes journal_name (first_lines turn))) }
{
    let Ok(name) = Word::from_bytes(alloc, b"journal.txt") else {
        return Err(Stop::Memory);
    };
    let Ok(text) = first_text(alloc, turn) else {
        return Err(Stop::Memory);
    };
    write_file(shelf, &name, &text)
}

// Begins the log of a group.
fn begin_log<F: Shelf>(
    alloc: Global,
    plan: &Plan,
    group: u32,
    log: &Word,
    shelf: &mut F,
) -> Result<(), Stop>
    requires group { group < length plan.now.groups }
    requires log { log.now ≡ log_name (group_at plan.now.groups group) }
    ensures { Does F.Shelf shelf.old shelf.new result (steps_of (file_writes
        (log_name (group_at plan.now.groups group)) (header_of (plan_of plan.now) (group_at plan.now.groups group)))) }
{
    let Ok(text) = header(alloc, plan, group) else {
        return Err(Stop::Memory);
    };
    write_file(shelf, log, &text)
}

// Begins each log.
fn begin_logs<F: Shelf>(
    alloc: Global,
    plan: &Plan,
    logs: &[Word],
    shelf: &mut F,
) -> Result<(), Stop>
    requires { AreLogsOf plan.now logs.now }
    ensures { Does F.Shelf shelf.old shelf.new result (steps_of
        (flat_map (λ (group : GroupValue). file_writes (log_name group) (header_of (plan_of plan.now) group))
        plan.now.groups)) }
{
    for k in 0..plan.groups.len() {
        begin_log(alloc, plan, k as u32, &logs[k], shelf)?;
    }
    Ok(())
}

/// Begins the files of a run that starts at a turn: the journal with its two first lines, and then each
/// log with its header, in the order of the groups. `logs` are the names of the plan's logs.
pub fn begin_files<F: Shelf>(
    alloc: Global,
    plan: &Plan,
    turn: u64,
    logs: &[Word],
    shelf: &mut F,
) -> Result<(), Stop>
    requires { AreLogsOf plan.now logs.now }
    ensures { Does F.Shelf shelf.old shelf.new result (steps_of (start_writes (plan_of plan.now) turn)) }
{
    begin_journal(alloc, turn, shelf)?;
    begin_logs(alloc, plan, logs, shelf)
}
