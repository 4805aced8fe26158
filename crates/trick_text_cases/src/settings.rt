//! What an input says of a run and of its threads, over a program without objects.

ghost use Rattle.std.specs.Prelude.{◌≡◌, []};
ghost use Rattle.trick_model.specs.Valid.{IsFrame};

use crate::call::Call;
use std::alloc::{AllocError, Global};
use trick_base::Items;
use trick_cases_report::Report;
use trick_input::{Call as InputCall, read_input};
use trick_lang::Program;
use trick_model::Thread;
use trick_plan_settings::{Setting, Settings, is_frame, queues, settings_in, threads};

/// A program without objects.
pub(crate) fn program(alloc: Global) -> Program {
    Program {
        cells: Items::new(alloc),
        items: Items::new(alloc),
        sizes: Items::new(alloc),
        objects: Items::new(alloc),
        blocks: Items::new(alloc),
        methods: Items::new(alloc),
        jobs: Items::new(alloc),
        slots: 0,
    }
}

// Adds a thread in a line.
fn thread_line(thread: &Thread, report: &mut Report) {
    report.number("thread ", u64::from(thread.number), " ");
    report.code(&thread.process);
    report.number(" cycle ", thread.cycle, "");
    report.word(if thread.named { " named\n" } else { "\n" });
}

// Adds the threads, each in a line.
fn thread_lines(threads: &[Thread], report: &mut Report) {
    for thread in threads {
        thread_line(thread, report);
    }
}

// Adds what is said of a run and of its threads.
fn shown(settings: &Settings, report: &mut Report) {
    report.number("frame ", settings.frame, "");
    report.number(" limit ", settings.limit, "");
    report.word(if settings.frozen { " frozen\n" } else { "\n" });
    thread_lines(settings.threads.as_slice(), report);
}

// Adds what the lines of an input say over a program.
fn said(
    alloc: Global,
    program: &Program,
    calls: &[InputCall],
    report: &mut Report,
) -> Result<(), AllocError> {
    let settings = settings_in(alloc, program, calls)?;
    shown(&settings, report);
    Ok(())
}

// Adds what the lines of an input say.
fn told(alloc: Global, calls: &[InputCall], report: &mut Report) -> Result<(), AllocError> {
    said(alloc, &program(alloc), calls, report)
}

/// What an input says of a run and of its threads.
pub(crate) fn settings_of(
    alloc: Global,
    call: &Call<'_>,
    report: &mut Report,
) -> Result<(), AllocError> {
    match read_input(alloc, call.text) {
        Ok(calls) => told(alloc, &calls, report),
        Err(_) => {
            report.word("no input");
            Ok(())
        }
    }
}

// Adds the threads of a program of which an input says nothing.
fn silent_threads(
    alloc: Global,
    program: &Program,
    frame: u64,
    report: &mut Report,
) -> Result<(), AllocError>
    requires frame { IsFrame frame }
{
    let silent = Setting {
        process: None,
        cycle: None,
    };
    let threads = threads(alloc, program, &[silent; 16], frame)?;
    thread_lines(threads.as_slice(), report);
    Ok(())
}

// Adds how many queues a program has.
fn count_of_queues(
    alloc: Global,
    program: &Program,
    report: &mut Report,
) -> Result<(), AllocError> {
    let queues = queues(alloc, program)?;
    report.number("", queues.len() as u64, " queues");
    Ok(())
}

// Adds what a program has of which an input says nothing.
fn of_silent_input(
    alloc: Global,
    program: &Program,
    frame: u64,
    report: &mut Report,
) -> Result<(), AllocError>
    requires frame { IsFrame frame }
{
    silent_threads(alloc, program, frame, report)?;
    count_of_queues(alloc, program, report)
}

/// The threads where an input names none, with a software frame of so many tics, and how many queues there are.
pub(crate) fn threads_of(
    alloc: Global,
    call: &Call<'_>,
    report: &mut Report,
) -> Result<(), AllocError> {
    let frame = call.number(0);
    if !is_frame(frame) {
        report.word("no software frame");
        return Ok(());
    }
    of_silent_input(alloc, &program(alloc), frame, report)
}
