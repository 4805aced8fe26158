//! Bytes in pieces, and the lines that come of them.

use crate::runs::Runs;
use crate::words::Words;
use std::alloc::{AllocError, Global};
use trick_cases_report::Report;
use trick_command::{Feed, FeedFault};

/// Calls of a feed.
#[derive(Clone, Copy)]
pub(crate) enum FeedCall {
    /// Begins a new feed.
    Begin,
    /// Pushes bytes in one piece.
    Push,
    /// Pushes bytes one by one.
    PushEach,
    /// Pulls the lines that wait.
    Pull,
    /// Pushes bytes to new feeds, cut in two at each of these places.
    CutInTwo { first: usize, last: usize },
    /// Pushes bytes to new feeds, cut in three at each two places.
    CutInThree,
}

/// The call of some words.
pub(crate) fn feed_call(words: Words) -> Option<FeedCall> {
    match words.name {
        "feed" => Some(FeedCall::Begin),
        "push" => Some(FeedCall::Push),
        "push_each" => Some(FeedCall::PushEach),
        "pull" => Some(FeedCall::Pull),
        "cut_in_two" => Some(FeedCall::CutInTwo {
            first: words.first as usize,
            last: words.second as usize,
        }),
        "cut_in_three" => Some(FeedCall::CutInThree),
        _ => None,
    }
}

// What a push answers.
fn pushed(feed: &mut Feed, piece: &[u8]) -> &'static str {
    match feed.push(piece) {
        Ok(()) => "taken",
        Err(FeedFault::LongLine) => "refused LongLine",
        Err(FeedFault::OutOfMemory) => "refused OutOfMemory",
    }
}

// Tells what a push answers.
fn push(feed: &mut Feed, piece: &[u8], report: &mut Report) {
    report.word("> ");
    report.word(pushed(feed, piece));
    report.word("\n");
}

// Tells what pushes of single bytes answer.
fn push_each(
    alloc: Global,
    feed: &mut Feed,
    bytes: &[u8],
    report: &mut Report,
) -> Result<(), AllocError> {
    let mut runs = Runs::new();
    for (index, byte) in bytes.iter().enumerate() {
        let answer = pushed(feed, &[*byte]);
        runs.add(index, String::from_str(alloc, answer)?, report);
    }
    runs.tell(report);
    Ok(())
}

// Tells the lines that wait, each between two words, and answers whether there was one. There are fewer than the bytes
// that were pushed.
fn pull_all(feed: &mut Feed, before: &str, after: &str, report: &mut Report) -> bool {
    let mut some = false;
    for _line in 0..100_000u32 {
        let Some(line) = feed.pull() else {
            break;
        };
        report.named(before, line.as_slice());
        report.word(after);
        some = true;
    }
    some
}

// Tells the lines that wait, one a line.
fn pull(feed: &mut Feed, report: &mut Report) {
    if !pull_all(feed, ">", "\n", report) {
        report.word("> no line\n");
    }
}

// Tells what pieces answer.
fn push_pieces(feed: &mut Feed, pieces: &[&[u8]], report: &mut Report) {
    for piece in pieces {
        report.word(pushed(feed, piece));
        report.word(", ");
    }
}

// Tells what pieces answer, and the lines that come of them.
fn tell_outcome(feed: &mut Feed, pieces: &[&[u8]], report: &mut Report) {
    push_pieces(feed, pieces, report);
    report.word("lines");
    pull_all(feed, "", "", report);
}

// What pieces come to that are pushed to a new feed.
fn outcome(alloc: Global, pieces: &[&[u8]]) -> Result<String, AllocError> {
    let mut feed = Feed::new(alloc);
    let mut told = Report::new(alloc);
    tell_outcome(&mut feed, pieces, &mut told);
    told.finish()
}

// Tells the outcomes of bytes that are cut in two, at each place from one to another.
fn cut_in_two(
    alloc: Global,
    bytes: &[u8],
    places: (usize, usize),
    report: &mut Report,
) -> Result<(), AllocError> {
    let mut runs = Runs::new();
    for cut in places.0..=places.1 {
        let (front, back) = bytes.split_at(cut.min(bytes.len()));
        runs.add(cut, outcome(alloc, &[front, back])?, report);
    }
    runs.tell(report);
    Ok(())
}

// Adds the outcomes of bytes that are cut in three, the second time at this place.
fn add_cuts(
    alloc: Global,
    runs: &mut Runs,
    bytes: &[u8],
    second: usize,
    report: &mut Report,
) -> Result<(), AllocError> {
    let (front, back) = bytes.split_at(second.min(bytes.len()));
    for first in 0..=front.len() {
        let (one, two) = front.split_at(first.min(front.len()));
        runs.add(second, outcome(alloc, &[one, two, back])?, report);
    }
    Ok(())
}

// Tells the outcomes of bytes that are cut in three, by the second place.
fn cut_in_three(alloc: Global, bytes: &[u8], report: &mut Report) -> Result<(), AllocError> {
    let mut runs = Runs::new();
    for second in 0..=bytes.len() {
        add_cuts(alloc, &mut runs, bytes, second, report)?;
    }
    runs.tell(report);
    Ok(())
}

/// Tells what a call comes to.
pub(crate) fn answer(
    alloc: Global,
    feed: &mut Feed,
    call: FeedCall,
    bytes: &[u8],
    report: &mut Report,
) -> Result<(), AllocError> {
    match call {
        FeedCall::Begin => *feed = Feed::new(alloc),
        FeedCall::Push => push(feed, bytes, report),
        FeedCall::Pull => pull(feed, report),
        FeedCall::PushEach => return push_each(alloc, feed, bytes, report),
        FeedCall::CutInTwo { first, last } => {
            return cut_in_two(alloc, bytes, (first, last), report);
        }
        FeedCall::CutInThree => return cut_in_three(alloc, bytes, report),
    }
    Ok(())
}
