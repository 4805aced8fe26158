//! What a bench says of a job on its way: filled, evaluated, stored and empty again.

ghost use Rattle.std.specs.Prelude.{◌<◌, ◌≡◌, length};
ghost use Rattle.trick_eval.specs.Bench.{IsFor};
ghost use Rattle.trick_memory.specs.Stored.{zeros};

use crate::told::{tell_fault, tell_memory};
use crate::words::letter_of;
use std::alloc::{AllocError, Global};
use trick_cases_report::Report;
use trick_eval::{Bench, eval};
use trick_lang::{Cell, Cells, JobId};
use trick_memory::Memory;
use trick_model::Plan;

// Adds the job of a bench.
fn tell_job(job: Option<JobId>, report: &mut Report) {
    match job {
        Some(job) => {
            report.word("> job ");
            report.value(letter_of(job));
        }
        None => report.word("> no job"),
    }
}

// Adds the job of a bench, its phase, whether it is done, and its fault.
fn tell_bench(bench: &Bench, report: &mut Report) {
    tell_job(bench.job(), report);
    report.number(", phase ", bench.phase(), ", done ");
    report.value(bench.done());
    if let Some(fault) = bench.fault() {
        report.word(", ");
        tell_fault(fault, report);
    }
    report.word("\n");
}

// Adds where a memory and a bench differ.
fn tell_difference(difference: Option<(Cell, i64, i64)>, report: &mut Report) {
    let Some((cell, now, given)) = difference else {
        report.word("> no cell differs\n");
        return;
    };
    report.number("> cell ", u64::from(cell.0), " has ");
    report.value(now);
    report.word(", not ");
    report.value(given);
    report.word("\n");
}

// Fills a bench with a phase and a job, evaluates the job, stores what it does and clears the bench.
fn carry_job(
    plan: &Plan,
    bench: &mut Bench,
    memory: &mut Memory,
    filling: (u64, JobId),
    report: &mut Report,
)
    requires bench { IsFor plan.now.program bench.old.parts }
    requires memory { memory.old ≡ zeros plan.now.program.cells }
    requires job { filling.1.0 < length plan.now.program.jobs }
{
    let program = &plan.program;
    bench.fill(program, filling.0, filling.1, memory);
    tell_bench(bench, report);
    tell_difference(bench.differs(program, memory), report);
    eval(program, bench);
    tell_bench(bench, report);
    bench.store(program, memory);
    if memory.len() as usize == program.cells.len() {
        tell_difference(bench.differs(program, memory), report);
    }
    bench.clear();
    tell_bench(bench, report);
}

// Adds what a bench says of a job on its way, and the memory after it, which had zeros.
fn carry_with(
    alloc: Global,
    plan: &Plan,
    phase: u64,
    job: JobId,
    report: &mut Report,
) -> Result<(), AllocError>
    requires { job.0 < length plan.now.program.jobs }
{
    let mut memory = Memory::new(alloc, plan)?;
    let mut bench = Bench::new(alloc, &plan.program)?;
    tell_bench(&bench, report);
    carry_job(plan, &mut bench, &mut memory, (phase, job), report);
    drop(bench);
    report.word("> ");
    tell_memory(&memory, report);
    report.word("\n");
    drop(memory);
    Ok(())
}

/// Adds what a bench says of the job of a letter on its way, and the memory after it, which had zeros.
pub(crate) fn carry(
    alloc: Global,
    plan: &Plan,
    phase: u64,
    letter: u8,
    report: &mut Report,
) -> Result<(), AllocError> {
    let job = JobId(u32::from(letter.saturating_sub(b'A')));
    if job.0 as usize >= plan.program.jobs.len() {
        report.word("> no such job\n");
        return Ok(());
    }
    carry_with(alloc, plan, phase, job, report)
}
