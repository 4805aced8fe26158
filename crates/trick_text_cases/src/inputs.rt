//! What the readers of inputs and S_defines answer, with the lines of their refusals.

use crate::call::{Call, refused};
use std::alloc::{AllocError, Global};
use trick_cases_report::Report;
use trick_check::resolve;
use trick_input::{Call as InputCall, Form, RunForm, read_input};
use trick_lang::syntax::SDefine;
use trick_sdef::read_sdef;
use trick_text::TimeFault;
use trick_top_refusals::{check_line, input_line, s_define_line};

// Adds a line without its line feed.
fn front(line: &[u8], report: &mut Report) {
    match line.split_last() {
        Some((b'\n', front)) => report.bytes(front),
        _ => report.bytes(line),
    }
}

// Adds the line of a refusal.
fn told(line: Result<Vec<u8>, AllocError>, report: &mut Report) {
    match line {
        Ok(line) => front(&line, report),
        Err(_) => report.lack(),
    }
}

// Adds the tics of a stop.
fn stop(time: &Result<u64, TimeFault>, report: &mut Report) {
    report.word("stop ");
    match time {
        Ok(tics) => report.value(*tics),
        Err(fault) => refused(*fault, report),
    }
}

// Adds the name of a cell and the number with which it begins.
fn assignment(name: &[u8], number: i128, report: &mut Report) {
    report.bytes(name);
    report.word(" = ");
    report.value(number);
}

// Adds what a line of an input says, where it is an assignment or a stop.
fn form(form: &Form, report: &mut Report) {
    match form {
        Form::Assign { name, number } => assignment(name.as_slice(), *number, report),
        Form::Run(RunForm::Stop { time }) => stop(time, report),
        _ => report.word("another form"),
    }
}

// Adds the lines of an input.
fn lines(calls: &[InputCall], report: &mut Report) {
    for call in calls {
        report.number("line ", u64::from(call.line), ": ");
        form(&call.form, report);
        report.word("\n");
    }
    report.number("", calls.len() as u64, " lines");
}

/// The lines of an input that say something.
pub(crate) fn input_of(alloc: Global, call: &Call<'_>, report: &mut Report) {
    match read_input(alloc, call.text) {
        Ok(calls) => lines(&calls, report),
        Err(fault) => told(input_line(alloc, fault), report),
    }
}

// Adds whether an S_define that is read is a program.
fn resolved(alloc: Global, sdef: &SDefine, report: &mut Report) {
    match resolve(alloc, sdef).err() {
        None => report.word("read"),
        Some(fault) => told(check_line(alloc, &fault), report),
    }
}

/// Whether an S_define is read, and the line of its refusal.
pub(crate) fn s_define_of(alloc: Global, call: &Call<'_>, report: &mut Report) {
    match read_sdef(alloc, call.text) {
        Ok(sdef) => resolved(alloc, &sdef, report),
        Err(fault) => told(s_define_line(alloc, fault), report),
    }
}
