//! What a tic comes to, as a text.

use crate::words::letter_of;
use trick_cases_report::Report;
use trick_lang::{Cell, Cells, JobFault};
use trick_memory::Memory;
use trick_model::Faults;

/// Adds a fault: its tic, job, kind and line.
pub(crate) fn tell_fault(fault: JobFault, report: &mut Report) {
    report.number("fault ", fault.tic, " ");
    report.value(letter_of(fault.job));
    report.word(" ");
    report.code(&fault.kind);
    report.number(" ", u64::from(fault.line), "");
}

/// Adds the numbers of a memory, by cell.
pub(crate) fn tell_memory(memory: &Memory, report: &mut Report) {
    report.word("memory");
    for cell in 0..memory.len() {
        report.word(" ");
        report.value(memory.get(Cell(cell)));
    }
}

/// Adds the numbers of a memory, and after them the faults.
pub(crate) fn tell(memory: &Memory, faults: &Faults, report: &mut Report) {
    tell_memory(memory, report);
    for fault in faults.first() {
        report.word(" ");
        tell_fault(*fault, report);
    }
}
