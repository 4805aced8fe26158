//! How often something comes to what.

use std::alloc::{AllocError, Global};
use trick_cases_report::Report;

// What something comes to, and how often.
#[derive(Drop)]
struct Entry {
    outcome: String,
    count: u64,
}

/// Outcomes in the order in which they came first, each with its count.
#[derive(Drop)]
pub(crate) struct Tally {
    entries: Vec<Entry>,
}

impl Tally {
    /// No outcomes.
    pub(crate) fn new(alloc: Global) -> Self {
        Tally {
            entries: Vec::new(alloc),
        }
    }

    // Counts an outcome that came before, and tells whether it did.
    fn counts(&mut self, outcome: &str) -> bool {
        for entry in &mut self.entries {
            if entry.outcome.as_str() == outcome {
                entry.count = entry.count.saturating_add(1);
                return true;
            }
        }
        false
    }

    /// Counts an outcome.
    pub(crate) fn add(&mut self, outcome: String) -> Result<(), AllocError> {
        if !self.counts(outcome.as_str()) {
            self.entries.push(Entry { outcome, count: 1 })?;
        }
        Ok(())
    }

    /// Adds a line for each outcome: its count, what was counted, and the outcome.
    pub(crate) fn tell(&self, what: &str, report: &mut Report) {
        for entry in &self.entries {
            report.number("> ", entry.count, " ");
            report.word(what);
            report.word(": ");
            report.word(entry.outcome.as_str());
            report.word("\n");
        }
    }
}
