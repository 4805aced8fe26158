//! What many calls come to, one after the other, with equal ones together.

use trick_cases_report::Report;

// Calls of one outcome, by their numbers.
#[derive(Drop)]
struct Run {
    outcome: String,
    first: usize,
    last: usize,
}

impl Run {
    // Tells it in a line.
    fn tell(&self, report: &mut Report) {
        report.number("> ", self.first as u64, "");
        if self.first < self.last {
            report.number(" to ", self.last as u64, "");
        }
        report.word(": ");
        report.word(self.outcome.as_str());
        report.word("\n");
    }
}

/// Calls with rising numbers, of which those of one outcome that follow one another are a run. The last run is kept.
#[derive(Drop)]
pub(crate) struct Runs {
    last: Option<Run>,
}

impl Runs {
    /// No calls.
    pub(crate) fn new() -> Runs {
        Runs { last: None }
    }

    // Adds the call of a number to the last run, where it has its outcome.
    fn goes_on(&mut self, number: usize, outcome: &str) -> bool {
        let Some(run) = &mut self.last else {
            return false;
        };
        if run.outcome.as_str() != outcome {
            return false;
        }
        run.last = number;
        true
    }

    /// Adds the call of a number, and tells the run before it where that has another outcome.
    pub(crate) fn add(&mut self, number: usize, outcome: String, report: &mut Report) {
        if !self.goes_on(number, outcome.as_str()) {
            self.tell(report);
            self.last = Some(Run {
                outcome,
                first: number,
                last: number,
            });
        }
    }

    /// Tells the last run in a line: the numbers of its first and of its last call, and the outcome.
    pub(crate) fn tell(&self, report: &mut Report) {
        if let Some(run) = &self.last {
            run.tell(report);
        }
    }
}
