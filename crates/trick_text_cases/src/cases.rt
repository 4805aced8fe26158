//! What the lines of the cases come to, one after another.

use crate::call::Call;
use crate::outside::{Held, quiet};
use crate::{
    bodies, commands, declarations, dues, inputs, lists, names, orders, scans, settings, texts,
};
use std::alloc::{AllocError, Global};
use trick_cases_report::{Given, Line, Report, Texts};

/// What the lines read so far leave for those after them.
#[derive(Drop)]
pub struct Cases {
    // What the text of the next call begins with.
    begun: Vec<u8>,
    held: Held,
}

impl Cases {
    /// No line is read.
    pub fn new(alloc: Global) -> Cases {
        Cases {
            begun: Vec::new(alloc),
            held: Held::new(alloc),
        }
    }

    /// Adds what is printed for a line.
    pub fn take(
        &mut self,
        alloc: Global,
        line: &str,
        report: &mut Report,
    ) -> Result<(), AllocError> {
        let said = Line::read(line);
        if !matches!(said, Line::Comment) {
            report.word(line);
            report.word("\n");
        }
        match said {
            Line::Add { times, given } => self.begin(alloc, times, given),
            Line::Call { words, given } => self.call(alloc, words, given, report),
            _ => Ok(()),
        }
    }

    // Adds bytes to the text of the next call, so many times.
    fn begin(&mut self, alloc: Global, times: u64, given: Given<'_>) -> Result<(), AllocError> {
        let bytes = bytes_of(alloc, given)?;
        for _time in 0..times {
            self.begun.extend_from_slice(&bytes)?;
        }
        Ok(())
    }

    // Adds what a call answers, whose text ends with these bytes.
    fn call(
        &mut self,
        alloc: Global,
        words: &str,
        given: Given<'_>,
        report: &mut Report,
    ) -> Result<(), AllocError> {
        self.begin(alloc, 1, given)?;
        let has_text = !self.begun.is_empty() || !matches!(given, Given::Nothing);
        let call = call_of(words, &self.begun, has_text);
        answer(alloc, &mut self.held, &call, report)?;
        self.begun.clear();
        Ok(())
    }
}

// The bytes that a line gives.
fn bytes_of(alloc: Global, given: Given<'_>) -> Result<Vec<u8>, AllocError> {
    Texts::new(alloc).given(alloc, given)
}

// The call of these words with this text.
fn call_of<'l>(words: &'l str, text: &'l [u8], has_text: bool) -> Call<'l> {
    let (name, words) = words.split_once(' ').unwrap_or((words, ""));
    Call {
        name,
        words,
        text,
        has_text,
    }
}

// Adds what a call answers. Its lines stand two blanks to the right.
fn answer(
    alloc: Global,
    held: &mut Held,
    call: &Call<'_>,
    report: &mut Report,
) -> Result<(), AllocError> {
    let mut answer = Report::new(alloc);
    answered(alloc, held, call, &mut answer)?;
    below(answer, report)
}

// Adds an answer, whose lines stand two blanks to the right.
fn below(answer: Report, report: &mut Report) -> Result<(), AllocError> {
    let answer = answer.finish()?;
    for line in answer.lines() {
        report.word("  ");
        report.word(line);
        report.word("\n");
    }
    Ok(())
}

// Adds what a call answers, here of the outside in memory.
fn answered(
    alloc: Global,
    held: &mut Held,
    call: &Call<'_>,
    report: &mut Report,
) -> Result<(), AllocError> {
    match call.name {
        "shelf" => held.shelve(alloc, call, report),
        "get" => held.get(alloc, call, report),
        "create" | "append" | "write" => held.write(alloc, call, report),
        "sink" => held.sink(alloc, call, report),
        "put" => held.put(call, report),
        "piece" => held.piece(call, report),
        "quiet" => quiet(alloc, report),
        _ => of_lists(alloc, call, report),
    }
}

// Adds what a call answers, here of lists and names.
fn of_lists(alloc: Global, call: &Call<'_>, report: &mut Report) -> Result<(), AllocError> {
    match call.name {
        "items" => lists::items_of(alloc, call, report),
        "word" => lists::word_of(alloc, call, report),
        "names" => names::names_of(alloc, call, report),
        "calls" => names::calls_of(alloc, call, report),
        "order" => orders::order_of(alloc, call, report),
        "chain_order" => orders::chain_order(alloc, call, report),
        _ => of_plans(alloc, call, report),
    }
}

// Adds what a call answers, here of what plans are made by and of commands.
fn of_plans(alloc: Global, call: &Call<'_>, report: &mut Report) -> Result<(), AllocError> {
    match call.name {
        "resolved" => bodies::resolved_of(alloc, call, report),
        "declaration" => declarations::declaration_of(alloc, call, report),
        "settings" => settings::settings_of(alloc, call, report),
        "threads" => settings::threads_of(alloc, call, report),
        "command" => commands::command_of(alloc, call, report),
        "gen" => commands::gen_of(alloc, call, report),
        _ => {
            of_readers(alloc, call, report);
            Ok(())
        }
    }
}

// Adds what a call answers, here of readers.
fn of_readers(alloc: Global, call: &Call<'_>, report: &mut Report) {
    match call.name {
        "condition" => bodies::condition_of(alloc, call, report),
        "method" => bodies::method_of(alloc, call, report),
        "input" => inputs::input_of(alloc, call, report),
        "s_define" => inputs::s_define_of(alloc, call, report),
        "declared" => declarations::declared_in_plan(alloc, call, report),
        "first_name" => declarations::first_name_of(call, report),
        _ => of_texts(alloc, call, report),
    }
}

// Adds what a call answers, here of the cutting of texts.
fn of_texts(alloc: Global, call: &Call<'_>, report: &mut Report) {
    match call.name {
        "tokens" => texts::tokens_of(alloc, call, report),
        "lines" => texts::lines_of(alloc, call, report),
        "cut" => texts::cut_of(alloc, call, report),
        "last_line" => texts::last_line_of(call, report),
        "whole" => texts::whole_of(alloc, call.text, report),
        "seconds" => texts::seconds_of(alloc, call.text, report),
        "number" => texts::number_of_token(alloc, call.text, report),
        "spelling" => texts::spelling_of(call, report),
        "says" => texts::fault_of(call, report),
        _ => of_dues(call, report),
    }
}

// Adds what a call answers, here of due tics.
fn of_dues(call: &Call<'_>, report: &mut Report) {
    match call.name {
        "range" => dues::range_of(call, report),
        "next" => dues::next_of(call, report),
        "nexts" => dues::nexts_of(call, report),
        "shared" => dues::shared_of(call, report),
        "meets" => dues::meets_of(call, report),
        "covers" => dues::covers_of(call, report),
        "covered" => dues::covered_of(call, report),
        "scan" => scans::compared(call.word(0), report),
        _ => report.word("no such call"),
    }
}
