//! A program that tests the product: it reads cases of whole commands from standard input, does each
//! by the top call over the forms in memory, and prints what it comes to; a run is done by threads as well, and must
//! come to the same. The cases stand in the file
//! `stdin`, and what they must print in the file `stdout`. The page FORMATS of the documents has their lines.
#![tactic(auto)]

mod by_threads;
mod cases;
mod escapes;
mod line;
mod mistake;
mod outcome;
mod report;
mod text;

use crate::cases::Cases;
use std::alloc::{AllocError, Global};
use std::io;
use std::sync::Wait;
use std::thread::Threads;
use trick_cases_report::Report;

/// What is printed for a line, which has this number, from 0.
fn told<R: Threads + Wait + Copy + Send + Drop + 'static>(
    alloc: Global,
    cases: &mut Cases<R>,
    number: usize,
    line: &str,
) -> Result<String, AllocError> {
    let mut report = Report::new(alloc);
    if let Err(mistake) = cases.take(alloc, line, &mut report) {
        report.number("line ", number.saturating_add(1) as u64, ": ");
        report.word(mistake.text());
        report.word("\n");
    }
    report.finish()
}

fn main(rt: HostRuntime) -> io::Result<()> {
    let alloc = rt.alloc();
    let mut cases = Cases::new(rt, alloc);
    for (number, line) in rt.lines(alloc).enumerate() {
        let text = told(alloc, &mut cases, number, line?.as_str())?;
        print!(rt; "{text}")?;
    }
    Ok(())
}
