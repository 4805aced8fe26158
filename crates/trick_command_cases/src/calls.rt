//! The calls that a line can make.

use crate::clients::{ClientCall, client_call};
use crate::deeds::{DeedCall, deed_call};
use crate::faults::{FaultsCall, faults_call};
use crate::feeds::{FeedCall, feed_call};
use crate::plans::{PlanCall, plan_call};
use crate::sources::{SourceCall, source_call};
use crate::words::Words;

/// A call, by what it is of.
#[derive(Clone, Copy)]
pub(crate) enum Call<'w> {
    Client(ClientCall),
    Feed(FeedCall),
    Faults(FaultsCall),
    Planned(PlannedCall<'w>),
}

/// A call that is made with the plan of the texts `s_define` and `input`.
#[derive(Clone, Copy)]
pub(crate) enum PlannedCall<'w> {
    Plan(PlanCall<'w>),
    Source(SourceCall),
    Deed(DeedCall),
}

// The call of some words, where it is made with a plan.
fn planned_call(words: Words) -> Option<PlannedCall> {
    if let Some(call) = source_call(words) {
        return Some(PlannedCall::Source(call));
    }
    if let Some(call) = deed_call(words) {
        return Some(PlannedCall::Deed(call));
    }
    Some(PlannedCall::Plan(plan_call(words)?))
}

// The call of some words.
fn call_by(words: Words) -> Option<Call> {
    if let Some(call) = client_call(words.name) {
        return Some(Call::Client(call));
    }
    if let Some(call) = feed_call(words) {
        return Some(Call::Feed(call));
    }
    if let Some(call) = faults_call(words) {
        return Some(Call::Faults(call));
    }
    Some(Call::Planned(planned_call(words)?))
}

// Whether a call of this name can have a word behind its numbers.
fn takes_word(name: &str) -> bool {
    matches!(name, "faults" | "source" | "entries" | "sample" | "read")
}

// How many numbers a call of this name has.
fn numbers_of(name: &str) -> u8 {
    match name {
        "cut_in_two" | "sample" | "stop" => 2,
        "apply" | "deed_stop" | "ends" | "entries" | "faults" | "load_with" => 1,
        "name" | "read" | "read_fronts" | "send" | "source" => 1,
        _ => 0,
    }
}

/// The call that a line says, where its words are those of a call.
pub(crate) fn call_of(line: &str) -> Option<Call> {
    let words = Words::read(line);
    let may_stand = words.word.is_empty() || takes_word(words.name);
    if may_stand && words.numbers == numbers_of(words.name) {
        return call_by(words);
    }
    None
}
