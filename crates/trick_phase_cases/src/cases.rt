//! What goes on from line to line: the texts.

use crate::acts::act_all;
use crate::benches::carry;
use crate::directive::{Call, Directive, directive_of, due_jobs};
use crate::forms::{by_one_bench, by_one_phase};
use crate::schedules::Tic;
use crate::wrong::Wrong;
use crate::yardstick::compare;
use std::alloc::{AllocError, Global};
use trick_cases_report::{Given, Line, Report, Texts};
use trick_model::Accepted;
use trick_top_texts::{Unready, ready};

/// The texts that lines made so far.
#[derive(Drop)]
pub struct Cases {
    texts: Texts,
}

// A list of steps of a tic.
fn play(
    alloc: Global,
    accepted: &Accepted,
    tic: u64,
    word: &str,
    report: &mut Report,
) -> Result<(), AllocError> {
    let tic = Tic {
        alloc,
        accepted,
        tic,
        due: &[],
    };
    tic.tell(word.as_bytes(), report)
}

// All schedules of a tic with these due jobs.
fn play_all(
    alloc: Global,
    accepted: &Accepted,
    tic: u64,
    due: &str,
    report: &mut Report,
) -> Result<(), AllocError> {
    let due = due_jobs(alloc, due)?;
    let tic = Tic {
        alloc,
        accepted,
        tic,
        due: &due,
    };
    tic.tell_all(report)
}

// Lists that are wrong, of a tic with these due jobs.
fn play_wrong(
    alloc: Global,
    accepted: &Accepted,
    tic: u64,
    words: (&str, &str),
    report: &mut Report,
) -> Result<(), AllocError> {
    let (letters, due) = words;
    let due = due_jobs(alloc, due)?;
    let tic = Tic {
        alloc,
        accepted,
        tic,
        due: &due,
    };
    Wrong { tic, letters }.tell_all(report)
}

// Adds what a call answers with this plan.
fn answer(
    alloc: Global,
    texts: &Texts,
    accepted: &Accepted,
    call: Call,
    report: &mut Report,
) -> Result<(), AllocError> {
    match call {
        Call::Play { tic, word } => play(alloc, accepted, tic, word, report),
        Call::PlayAll { tic, due } => play_all(alloc, accepted, tic, due, report),
        Call::PlayWrong { tic, letters, due } => {
            play_wrong(alloc, accepted, tic, (letters, due), report)
        }
        Call::OnePhase { tic } => by_one_phase(alloc, accepted, tic, report),
        Call::OneBench { tic } => by_one_bench(alloc, accepted, tic, report),
        Call::Bench { phase, letter } => carry(alloc, accepted.plan(), phase, letter, report),
        Call::Acts { name } => act_all(alloc, accepted, texts.named(name), report),
    }
}

/// Adds why there is no plan.
pub(crate) fn refuse(unready: &Unready, report: &mut Report) {
    match unready {
        Unready::TextRefused { line } | Unready::PlanRefused { line } => report.lines(line),
        Unready::OutOfMemory => report.word("refused OutOfMemory\n"),
    }
}

// Adds what a call answers with the plan of the texts.
fn plan(alloc: Global, texts: &Texts, call: Call, report: &mut Report) -> Result<(), AllocError> {
    match ready(alloc, texts.named("s_define"), texts.named("input")) {
        Ok(accepted) => {
            let done = answer(alloc, texts, &accepted, call, report);
            drop(accepted);
            done
        }
        Err(unready) => {
            refuse(&unready, report);
            Ok(())
        }
    }
}

// Adds the words of a call, and what it answers.
fn call(alloc: Global, texts: &Texts, words: &str, report: &mut Report) -> Result<(), AllocError> {
    report.word(words);
    report.word("\n");
    match directive_of(words) {
        Directive::Planned(call) => plan(alloc, texts, call, report),
        Directive::Drawn(drawing) => compare(alloc, drawing, report),
        Directive::Unknown => {
            report.word("> no directive\n");
            Ok(())
        }
    }
}

// Adds the head of a section.
fn head(line: &str, report: &mut Report) {
    report.word("\n");
    report.word(line);
    report.word("\n");
}

impl Cases {
    /// No line is read yet.
    pub fn new(alloc: Global) -> Cases {
        Cases {
            texts: Texts::new(alloc),
        }
    }

    // Adds what a line gives to the last text, so many times.
    fn add(&mut self, alloc: Global, times: u64, given: Given<'_>) -> Result<(), AllocError> {
        let bytes = self.texts.given(alloc, given)?;
        self.texts.add(times, &bytes)
    }

    /// Adds what is printed for a line: itself where it is a head or a call, and what the call answers.
    pub fn take(
        &mut self,
        alloc: Global,
        line: &str,
        report: &mut Report,
    ) -> Result<(), AllocError> {
        match Line::read(line) {
            Line::Empty | Line::Comment => Ok(()),
            Line::Head => {
                head(line, report);
                Ok(())
            }
            Line::Text(name) => self.texts.begin(alloc, name),
            Line::Add { times, given } => self.add(alloc, times, given),
            Line::Call { .. } => call(alloc, &self.texts, line, report),
        }
    }
}
