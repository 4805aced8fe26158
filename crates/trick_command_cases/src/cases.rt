//! What goes on from line to line: texts, a feed, and the source of entries of a journal.

use crate::calls::{Call, PlannedCall, call_of};
use crate::stage::Stage;
use crate::{clients, deeds, faults, feeds, plans, sources};
use std::alloc::{AllocError, Global};
use trick_cases_report::{Given, Line, Report, Texts};
use trick_command::Feed;
use trick_exec_sources::JournalTurns;
use trick_model::Plan;
use trick_top_texts::ready;

/// The texts, the feed to which bytes are pushed, and the source of entries, where one was made.
#[derive(Drop)]
pub struct Cases {
    texts: Texts,
    feed: Feed,
    source: Option<JournalTurns>,
}

impl Cases {
    /// No texts, a new feed and no source.
    pub fn new(alloc: Global) -> Cases {
        Cases {
            texts: Texts::new(alloc),
            feed: Feed::new(alloc),
            source: None,
        }
    }

    // Tells what a call comes to with this plan.
    fn answer_with(
        &mut self,
        alloc: Global,
        plan: &Plan,
        call: PlannedCall,
        bytes: &[u8],
        report: &mut Report,
    ) -> Result<(), AllocError> {
        let stage = Stage {
            alloc,
            plan,
            texts: &self.texts,
        };
        match call {
            PlannedCall::Plan(call) => plans::answer(stage, call, bytes, report),
            PlannedCall::Source(call) => {
                sources::answer(stage, &mut self.source, call, bytes, report)
            }
            PlannedCall::Deed(call) => deeds::answer(alloc, plan, call, bytes, report),
        }
    }

    // Tells what a call comes to with the plan of the texts.
    fn answer_planned(
        &mut self,
        alloc: Global,
        call: PlannedCall,
        bytes: &[u8],
        report: &mut Report,
    ) -> Result<(), AllocError> {
        let s_define = self.texts.named("s_define");
        match ready(alloc, s_define, self.texts.named("input")) {
            Ok(accepted) => self.answer_with(alloc, accepted.plan(), call, bytes, report),
            Err(fault) => plans::unready(alloc, &fault, report),
        }
    }

    // Tells what a call with these bytes comes to.
    fn answer(
        &mut self,
        alloc: Global,
        call: Call,
        bytes: &[u8],
        report: &mut Report,
    ) -> Result<(), AllocError> {
        match call {
            Call::Client(call) => clients::answer(alloc, call, bytes, report),
            Call::Feed(call) => feeds::answer(alloc, &mut self.feed, call, bytes, report),
            Call::Faults(call) => faults::answer(alloc, call, report),
            Call::Planned(call) => self.answer_planned(alloc, call, bytes, report),
        }
    }

    // Tells what the call of some words comes to.
    fn call(
        &mut self,
        alloc: Global,
        words: &str,
        given: Given,
        report: &mut Report,
    ) -> Result<(), AllocError> {
        let Some(call) = call_of(words) else {
            report.word("> no directive\n");
            return Ok(());
        };
        let bytes = self.texts.given(alloc, given)?;
        self.answer(alloc, call, &bytes, report)
    }

    // Adds bytes to the last text.
    fn add(&mut self, alloc: Global, times: u64, given: Given) -> Result<(), AllocError> {
        let bytes = self.texts.given(alloc, given)?;
        self.texts.add(times, &bytes)
    }

    /// Adds to the report what is printed for a line: itself where it is a head or a call, and what the call comes to.
    pub fn take(
        &mut self,
        alloc: Global,
        line: &str,
        report: &mut Report,
    ) -> Result<(), AllocError> {
        match Line::read(line) {
            Line::Empty | Line::Comment => Ok(()),
            Line::Head => {
                tell_head(line, report);
                Ok(())
            }
            Line::Text(name) => self.texts.begin(alloc, name),
            Line::Add { times, given } => self.add(alloc, times, given),
            Line::Call { words, given } => {
                tell_line(line, report);
                self.call(alloc, words, given, report)
            }
        }
    }
}

// Tells a line as it is.
fn tell_line(line: &str, report: &mut Report) {
    report.word(line);
    report.word("\n");
}

// Tells the head of a section.
fn tell_head(line: &str, report: &mut Report) {
    report.word("\n");
    tell_line(line, report);
}
