//! What a text declares, the name that a full name begins with, and the variables that are added to a plan.

use crate::call::{Call, refused};
use crate::settings::program;
use std::alloc::{AllocError, Global};
use trick_cases_report::Report;
use trick_model::Plan;
use trick_plan::plan;
use trick_plan_variables::{Declaration, SpelledDeclaration, declare, first_name};

// Adds a declaration: its type, its name and the lengths of its array.
fn shown(declaration: &Declaration, report: &mut Report) {
    report.code(&declaration.scalar);
    report.word(" ");
    report.bytes(declaration.name.as_slice());
    for length in declaration.lengths.as_slice() {
        report.number(" [", *length, "]");
    }
}

/// What a text declares, if anything.
pub(crate) fn declaration_of(
    alloc: Global,
    call: &Call<'_>,
    report: &mut Report,
) -> Result<(), AllocError> {
    match SpelledDeclaration::read(alloc, call.text)? {
        Some(declared) => shown(&declared.declaration, report),
        None => report.word("no declaration"),
    }
    Ok(())
}

/// The name that a full name begins with.
pub(crate) fn first_name_of(call: &Call<'_>, report: &mut Report) {
    report.bytes(first_name(call.text));
}

// Adds what a text comes to that declares a variable of a plan, and how many cells there are after it.
fn declared(alloc: Global, plan: &mut Plan, text: &[u8], report: &mut Report) {
    match declare(alloc, plan, text) {
        Ok(()) => report.word("added"),
        Err(fault) => refused(fault, report),
    }
    report.number(", ", plan.program.cells.len() as u64, " cells\n");
}

// Adds the names of the cells of a plan.
fn cells(plan: &Plan, report: &mut Report) {
    report.word("cells");
    for cell in plan.program.cells.as_slice() {
        report.word(" ");
        report.bytes(cell.name.as_slice());
    }
}

// Adds what each line of a text comes to that declares a variable of the plan, and the cells after all of them.
fn declared_by(alloc: Global, plan: &mut Plan, text: &[u8], report: &mut Report) {
    for line in text.split(|byte| *byte == b'\n') {
        declared(alloc, plan, line, report);
    }
    cells(plan, report);
}

/// What the lines of a text declare in a plan without objects.
pub(crate) fn declared_in_plan(alloc: Global, call: &Call<'_>, report: &mut Report) {
    match plan(alloc, program(alloc), &[]) {
        Ok(mut plan) => declared_by(alloc, &mut plan, call.text, report),
        Err(_) => report.word("no plan"),
    }
}
