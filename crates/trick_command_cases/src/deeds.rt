//! What actions ask for in a plan, the cells of a plan by their names, and what is stored in them.

ghost use Rattle.std.specs.Prelude.{◌≡◌};
ghost use Rattle.trick_lang.specs.Effect.{scalars_of};

use crate::words::{Words, small};
use std::alloc::{AllocError, Global};
use trick_cases_report::Report;
use trick_command::actions;
use trick_lang::{Cell, Cells};
use trick_memory::Memory;
use trick_model::{Action, Deed, Plan};
use trick_plan_deeds::{deed_in_plan, deed_of, find_cell};

/// Calls about deeds and cells.
#[derive(Clone, Copy)]
pub(crate) enum DeedCall {
    /// What the actions of a text ask for.
    Deeds,
    /// What a stop after so many tics asks for.
    Stop { tics: u64 },
    /// The cell of a full name.
    Cell,
    /// The full name of a cell.
    Name { cell: u32 },
    /// What all cells hold after the first action of a text.
    Store,
}

/// The call of some words.
pub(crate) fn deed_call(words: Words) -> Option<DeedCall> {
    match words.name {
        "deeds" => Some(DeedCall::Deeds),
        "deed_stop" => Some(DeedCall::Stop { tics: words.first }),
        "cell" => Some(DeedCall::Cell),
        "name" => Some(DeedCall::Name {
            cell: small(words.first),
        }),
        "store" => Some(DeedCall::Store),
        _ => None,
    }
}

// Tells what an action asks for.
fn tell_deed(deed: Option<Deed>, report: &mut Report) {
    match deed {
        Some(deed) => report.code(&deed),
        None => report.word("nothing"),
    }
}

// Tells what actions ask for, each in a line.
fn asked(plan: &Plan, actions: &[Action], report: &mut Report) {
    let groups = plan.groups.as_slice();
    let events = plan.events.as_slice();
    for action in actions {
        report.word("> ");
        tell_deed(deed_of(&plan.program, groups, events, action), report);
        report.word("\n");
    }
}

// Tells the number of a cell.
fn tell_cell(word: &str, cell: Option<Cell>, report: &mut Report) {
    report.word(word);
    match cell {
        Some(cell) => report.number(" ", u64::from(cell.0), ""),
        None => report.word(" none"),
    }
}

// Tells the cell of a full name, as the program finds it and as its memory does.
fn tell_found(plan: &Plan, memory: &Memory, name: &[u8], report: &mut Report) {
    tell_cell("> cell", find_cell(&plan.program, name), report);
    tell_cell(", in memory", memory.find(plan, name), report);
    report.word("\n");
}

// Tells the same with a new memory.
fn found(alloc: Global, plan: &Plan, name: &[u8], report: &mut Report) -> Result<(), AllocError> {
    let memory = Memory::new(alloc, plan)?;
    tell_found(plan, &memory, name, report);
    Ok(())
}

// Tells the full name of a cell.
fn named(alloc: Global, plan: &Plan, cell: u32, report: &mut Report) -> Result<(), AllocError> {
    let memory = Memory::new(alloc, plan)?;
    report.named(">", memory.name(plan, Cell(cell)));
    report.word("\n");
    Ok(())
}

// Does what an action stores.
fn store(plan: &Plan, memory: &mut Memory, action: &Action)
    requires scalars { memory.old.scalars ≡ scalars_of plan.now.program.cells }
{
    if let Some(Deed::SetCell { cell, number }) = deed_in_plan(plan, action) {
        if cell.0 < memory.len() {
            memory.set(cell, number);
        }
    }
}

// Tells what all cells hold.
fn tell_numbers(memory: &Memory, report: &mut Report) {
    report.word(">");
    for cell in 0..memory.len() {
        report.word(" ");
        report.value(memory.get(Cell(cell)));
    }
    report.word("\n");
}

// Tells what all cells hold after an action.
fn stored(
    alloc: Global,
    plan: &Plan,
    action: &Action,
    report: &mut Report,
) -> Result<(), AllocError> {
    let mut memory = Memory::new(alloc, plan)?;
    store(plan, &mut memory, action);
    tell_numbers(&memory, report);
    Ok(())
}

// Tells what actions ask for, or what the first one stores.
fn of_actions(
    alloc: Global,
    plan: &Plan,
    call: DeedCall,
    actions: &[Action],
    report: &mut Report,
) -> Result<(), AllocError> {
    match (call, actions) {
        (DeedCall::Store, [action, ..]) => return stored(alloc, plan, action, report),
        (DeedCall::Store, []) => report.word("> no action\n"),
        _ => asked(plan, actions, report),
    }
    Ok(())
}

// Tells the same of the actions of a text.
fn of_text(
    alloc: Global,
    plan: &Plan,
    call: DeedCall,
    text: &[u8],
    report: &mut Report,
) -> Result<(), AllocError> {
    match actions(alloc, text) {
        Ok(actions) => of_actions(alloc, plan, call, actions.as_slice(), report),
        Err(_) => {
            report.word("> no action\n");
            Ok(())
        }
    }
}

// Tells what a stop after so many tics asks for.
fn stop(plan: &Plan, tics: u64, report: &mut Report) {
    asked(plan, &[Action::Stop { at: Some(tics) }], report);
}

/// Tells what a call comes to with this plan.
pub(crate) fn answer(
    alloc: Global,
    plan: &Plan,
    call: DeedCall,
    bytes: &[u8],
    report: &mut Report,
) -> Result<(), AllocError> {
    match call {
        DeedCall::Stop { tics } => {
            stop(plan, tics, report);
            Ok(())
        }
        DeedCall::Cell => found(alloc, plan, bytes, report),
        DeedCall::Name { cell } => named(alloc, plan, cell, report),
        DeedCall::Deeds | DeedCall::Store => of_text(alloc, plan, call, bytes, report),
    }
}
