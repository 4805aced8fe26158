//! Faster forms beside their plain ones, on many plans that are drawn.

use crate::cases::refuse;
use crate::drawn::{Numbers, draw_with_pairs, draw_with_threads};
use crate::drives::first_other_answer;
use crate::walks::first_difference;
use std::alloc::{AllocError, Global};
use trick_cases_report::Report;
use trick_model::Accepted;
use trick_top_texts::ready;

/// Which form is compared with its plain one.
#[derive(Clone, Copy)]
pub(crate) enum Form {
    /// The queues, with a look at each job at each tic.
    Queues,
    /// The board, with a look at each due job at each take.
    Board,
}

/// So many plans that follow from a number.
#[derive(Clone, Copy)]
pub(crate) struct Drawing {
    pub(crate) form: Form,
    pub(crate) seed: u64,
    pub(crate) count: u64,
}

// The texts of a simulation.
#[derive(Drop)]
struct Drawn {
    s_define: String,
    input: String,
}

// The texts of the next plan.
fn next_texts(alloc: Global, form: Form, numbers: &mut Numbers) -> Result<Drawn, AllocError> {
    let mut s_define = Report::new(alloc);
    let mut input = Report::new(alloc);
    match form {
        Form::Queues => draw_with_threads(numbers, &mut s_define, &mut input),
        Form::Board => draw_with_pairs(numbers, &mut s_define, &mut input),
    }
    let s_define = s_define.finish()?;
    let input = input.finish()?;
    Ok(Drawn { s_define, input })
}

// Where a form differs from its plain one, with this plan.
fn place(
    alloc: Global,
    accepted: &Accepted,
    form: Form,
    numbers: &mut Numbers,
) -> Result<Option<u64>, AllocError> {
    match form {
        Form::Queues => first_difference(alloc, accepted.plan(), numbers),
        Form::Board => first_other_answer(alloc, accepted, numbers),
    }
}

// Adds where a form differs from its plain one, with this plan.
fn differ(
    alloc: Global,
    accepted: &Accepted,
    form: Form,
    numbers: &mut Numbers,
    line: &mut Report,
) -> Result<(), AllocError> {
    if let Some(at) = place(alloc, accepted, form, numbers)? {
        line.number("differs at ", at, "\n");
    }
    Ok(())
}

// The same with the plan of these texts, or why there is none.
fn differ_with(
    alloc: Global,
    texts: &Drawn,
    form: Form,
    numbers: &mut Numbers,
    line: &mut Report,
) -> Result<(), AllocError> {
    match ready(alloc, texts.s_define.as_bytes(), texts.input.as_bytes()) {
        Ok(accepted) => {
            let done = differ(alloc, &accepted, form, numbers, line);
            drop(accepted);
            done
        }
        Err(unready) => {
            refuse(&unready, line);
            Ok(())
        }
    }
}

// The same with the next plan, as a text.
fn next_line(alloc: Global, form: Form, numbers: &mut Numbers) -> Result<String, AllocError> {
    let texts = next_texts(alloc, form, numbers)?;
    let mut line = Report::new(alloc);
    differ_with(alloc, &texts, form, numbers, &mut line)?;
    line.finish()
}

// Whether the forms are equal on the next plan, which has this number; where they are not that is added.
fn is_equal(
    alloc: Global,
    form: Form,
    number: u64,
    numbers: &mut Numbers,
    report: &mut Report,
) -> Result<bool, AllocError> {
    let line = next_line(alloc, form, numbers)?;
    if line.is_empty() {
        return Ok(true);
    }
    report.number("> plan ", number, ": ");
    report.word(line.as_str());
    Ok(false)
}

/// Adds whether the forms are equal on the plans, and else the number of the first plan on which they are not.
pub(crate) fn compare(
    alloc: Global,
    drawing: Drawing,
    report: &mut Report,
) -> Result<(), AllocError> {
    let mut numbers = Numbers::new(drawing.seed);
    for number in 0..drawing.count {
        if !is_equal(alloc, drawing.form, number, &mut numbers, report)? {
            return Ok(());
        }
    }
    report.number("> ", drawing.count, " plans, equal\n");
    Ok(())
}
