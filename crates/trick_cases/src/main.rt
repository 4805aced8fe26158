//! A program that tests what stands below the commands: it reads cases from standard input, makes their calls, and
//! prints what these come to. The calls stand in three libraries; a line `=== texts`, `=== tics` or `=== lines` says
//! whose cases the next lines are. The cases stand in the file `stdin`, which says at the head of each part what a line
//! of it may be, and what they must print in the file `stdout`.
#![tactic(auto)]

use std::alloc::{AllocError, Global};
use std::io;
use trick_cases_report::Report;
use trick_command_cases::Cases as LineCases;
use trick_phase_cases::Cases as TicCases;
use trick_text_cases::Cases as TextCases;

/// Which library has the calls of a line.
#[derive(Clone, Copy)]
enum Part {
    Texts,
    Tics,
    Lines,
}

/// The cases of each library, and which of them are read.
#[derive(Drop)]
struct Cases {
    part: Part,
    texts: TextCases,
    tics: TicCases,
    lines: LineCases,
}

/// The part that begins with a line, where one does.
fn part_of(line: &str) -> Option<Part> {
    match line {
        "=== texts" => Some(Part::Texts),
        "=== tics" => Some(Part::Tics),
        "=== lines" => Some(Part::Lines),
        _ => None,
    }
}

impl Cases {
    /// No line is read.
    fn new(alloc: Global) -> Cases {
        Cases {
            part: Part::Texts,
            texts: TextCases::new(alloc),
            tics: TicCases::new(alloc),
            lines: LineCases::new(alloc),
        }
    }

    /// Adds what is printed for a line.
    fn take(&mut self, alloc: Global, line: &str, report: &mut Report) -> Result<(), AllocError> {
        if let Some(part) = part_of(line) {
            self.part = part;
            report.word(line);
            report.word("\n");
            return Ok(());
        }
        match self.part {
            Part::Texts => self.texts.take(alloc, line, report),
            Part::Tics => self.tics.take(alloc, line, report),
            Part::Lines => self.lines.take(alloc, line, report),
        }
    }

    /// What is printed for a line.
    fn told(&mut self, alloc: Global, line: &str) -> Result<String, AllocError> {
        let mut report = Report::new(alloc);
        self.take(alloc, line, &mut report)?;
        report.finish()
    }
}

fn main(rt: HostRuntime) -> io::Result<()> {
    let alloc = rt.alloc();
    let mut cases = Cases::new(alloc);
    for line in rt.lines(alloc) {
        let text = cases.told(alloc, line?.as_str())?;
        print!(rt; "{text}")?;
    }
    Ok(())
}
