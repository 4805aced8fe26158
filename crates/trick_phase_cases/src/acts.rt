//! Acts on a board and its two benches, as lines say them.

ghost use Rattle.trick_phase_cases.specs.Trial.{IsTrial};

use crate::directive::{first_word, number};
use crate::told;
use crate::trial::Trial;
use std::alloc::{AllocError, Global};
use std::fmt::Debug;
use trick_base::TIC_LIMIT;
use trick_cases_report::Report;
use trick_memory::Memory;
use trick_model::{Accepted, Faults};
use trick_phase_board::Closed;

// An act on a board and two benches.
#[derive(Clone, Copy)]
enum Act {
    // Opens a tic with a memory of zeros.
    Open { tic: u64 },
    // Takes a job of a thread.
    Take { thread: u8 },
    // Fills the bench by hand with a phase, a job and zeros.
    Fill { phase: u64, job: u32 },
    // Evaluates the job in the bench and commits it.
    Commit,
    // Closes the tic.
    Close,
    // Goes on with the other bench, and looks at it.
    Swap,
    // Looks at the phase and the job of the bench.
    Look,
}

// The act that fills a bench.
fn fill_of(words: &str) -> Option<Act> {
    let (phase, job) = first_word(words);
    let phase = number(phase)?;
    let job = number(job)?.min(1_000) as u32;
    Some(Act::Fill { phase, job })
}

// The act of a name and what stands after it.
fn act_with(name: &str, words: &str) -> Option<Act> {
    match name {
        "open" => Some(Act::Open {
            tic: number(words)?,
        }),
        "take" => Some(Act::Take {
            thread: number(words)?.min(255) as u8,
        }),
        "fill" => fill_of(words),
        _ => None,
    }
}

// The act of a line, where it says one.
fn act_of(line: &str) -> Option<Act> {
    match line {
        "commit" => Some(Act::Commit),
        "close" => Some(Act::Close),
        "swap" => Some(Act::Swap),
        "look" => Some(Act::Look),
        _ => {
            let (name, words) = first_word(line);
            act_with(name, words)
        }
    }
}

// Adds an answer, or a word where there is none.
fn tell<T: Debug + Copy>(answer: Option<T>, other: &str, report: &mut Report) {
    match answer {
        Some(answer) => report.code(&answer),
        None => report.word(other),
    }
}

// Adds what a close answered.
fn tell_closed(closed: &Option<Closed<Memory>>, faults: &Faults, report: &mut Report) {
    match closed {
        Some(Closed::Memory(memory)) => told::tell(memory, faults, report),
        Some(Closed::Left { count }) => report.number("left ", u64::from(*count), ""),
        None => report.word("closed"),
    }
}

// Adds the phase and the job of the bench.
fn look(trial: &Trial, report: &mut Report) {
    report.number("", trial.phase(), " ");
    report.code(&trial.held());
}

// Opens a tic.
fn open(
    trial: &mut Trial,
    alloc: Global,
    accepted: &Accepted,
    tic: u64,
    report: &mut Report,
) -> Result<(), AllocError>
    requires { IsTrial accepted.now.plan trial.old.board trial.old.bench trial.old.other }
    ensures { IsTrial accepted.now.plan trial.new.board trial.new.bench trial.new.other }
{
    report.word(if trial.is_open() { "open" } else { "opened" });
    trial.open(alloc, accepted, tic.min(TIC_LIMIT))
}

// Fills the bench by hand.
fn fill(
    trial: &mut Trial,
    alloc: Global,
    accepted: &Accepted,
    filling: (u64, u32),
    report: &mut Report,
) -> Result<(), AllocError>
    requires { IsTrial accepted.now.plan trial.old.board trial.old.bench trial.old.other }
    ensures { IsTrial accepted.now.plan trial.new.board trial.new.bench trial.new.other }
{
    let is_filled = trial.fill(alloc, accepted, filling.0, filling.1)?;
    report.word(if is_filled { "filled" } else { "no job" });
    Ok(())
}

// Evaluates the job in the bench and commits it.
fn commit(trial: &mut Trial, accepted: &Accepted, report: &mut Report)
    requires { IsTrial accepted.now.plan trial.old.board trial.old.bench trial.old.other }
    ensures { IsTrial accepted.now.plan trial.new.board trial.new.bench trial.new.other }
{
    let other = if trial.held().is_none() {
        "empty"
    } else {
        "closed"
    };
    tell(trial.commit(accepted), other, report);
}

// Closes the tic.
fn close(
    trial: &mut Trial,
    alloc: Global,
    accepted: &Accepted,
    report: &mut Report,
) -> Result<(), AllocError>
    requires { IsTrial accepted.now.plan trial.old.board trial.old.bench trial.old.other }
    ensures { IsTrial accepted.now.plan trial.new.board trial.new.bench trial.new.other }
{
    let mut faults = Faults::new(alloc)?;
    let closed = trial.close(accepted, &mut faults);
    tell_closed(&closed, &faults, report);
    Ok(())
}

// Does an act, and adds what it answers.
fn do_act(
    trial: &mut Trial,
    alloc: Global,
    accepted: &Accepted,
    act: Act,
    report: &mut Report,
) -> Result<(), AllocError>
    requires { IsTrial accepted.now.plan trial.old.board trial.old.bench trial.old.other }
    ensures { IsTrial accepted.now.plan trial.new.board trial.new.bench trial.new.other }
{
    match act {
        Act::Open { tic } => return open(trial, alloc, accepted, tic, report),
        Act::Take { thread } => tell(trial.take(accepted, thread), "closed", report),
        Act::Fill { phase, job } => return fill(trial, alloc, accepted, (phase, job), report),
        Act::Commit => commit(trial, accepted, report),
        Act::Close => return close(trial, alloc, accepted, report),
        Act::Swap => {
            trial.swap();
            look(trial, report);
        }
        Act::Look => look(trial, report),
    }
    Ok(())
}

// Does the act that a line says, and adds what it answers.
fn do_line(
    trial: &mut Trial,
    alloc: Global,
    accepted: &Accepted,
    line: &str,
    report: &mut Report,
) -> Result<(), AllocError>
    requires { IsTrial accepted.now.plan trial.old.board trial.old.bench trial.old.other }
    ensures { IsTrial accepted.now.plan trial.new.board trial.new.bench trial.new.other }
{
    let Some(act) = act_of(line) else {
        report.word("no act");
        return Ok(());
    };
    do_act(trial, alloc, accepted, act, report)
}

// Does the acts of some lines, and adds what each answers.
fn do_lines(
    trial: &mut Trial,
    alloc: Global,
    accepted: &Accepted,
    lines: &str,
    report: &mut Report,
) -> Result<(), AllocError>
    requires { IsTrial accepted.now.plan trial.old.board trial.old.bench trial.old.other }
{
    for line in lines.lines() {
        report.word(line);
        report.word(" > ");
        do_line(trial, alloc, accepted, line, report)?;
        report.word("\n");
    }
    Ok(())
}

/// Adds what the acts of some lines answer, one a line, that are done on a new board.
pub(crate) fn act_all(
    alloc: Global,
    accepted: &Accepted,
    lines: &[u8],
    report: &mut Report,
) -> Result<(), AllocError> {
    let mut trial = Trial::new(alloc, accepted)?;
    let lines = str::from_utf8(lines).unwrap_or("");
    let done = do_lines(&mut trial, alloc, accepted, lines, report);
    drop(trial);
    done
}
