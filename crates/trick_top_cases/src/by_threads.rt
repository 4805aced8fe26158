//! Whether a command comes to the same where its run is by threads, and how many threads it asks for.

use crate::outcome::{Given, Outcome, in_threads_of, replay_of};
use crate::text::{Text, find};
use std::alloc::{AllocError, Global};
use std::sync::Wait;
use std::thread::Threads;
use trick_base::Word;

/// All starts that there can be.
const ALL: &[u64] = &[0, 1, 2, 3, 4, 5, 6, 7, 8, 9, 10, 11, 12, 13, 14];

/// The starts that are refused: none, every second one, and last all.
const REFUSED: [&[u64]; 3] = [&[], &[1, 3, 5, 7, 9, 11, 13], ALL];

/// What an input says of an asynchronous thread.
const ASYNCHRONOUS: &str = "PROCESS_TYPE_ASYNC_CHILD";

/// The file in which a run writes its journal.
const JOURNAL: &[u8] = b"journal.txt";

/// A command with these words after it.
fn words_for(alloc: Global, command: &[u8], others: &[Word]) -> Result<Vec<Word>, AllocError> {
    let mut words = Vec::new(alloc);
    words.push(Word::from_bytes(alloc, command)?)?;
    for word in others {
        words.push(word.try_clone()?)?;
    }
    Ok(words)
}

/// The words after `serial`, where this is the command.
fn serial_words(words: &[Word]) -> Option<&[Word]> {
    match words.split_first() {
        Some((first, others)) if first.is(b"serial") => Some(others),
        _ => None,
    }
}

/// Whether a text speaks of an asynchronous thread.
fn has_round(bytes: &[u8]) -> bool {
    match str::from_utf8(bytes) {
        Ok(text) => text.contains(ASYNCHRONOUS),
        Err(_) => false,
    }
}

/// Whether some file does.
fn has_rounds(files: &[Text]) -> bool {
    for file in files {
        if has_round(&file.bytes) {
            return true;
        }
    }
    false
}

/// Whether this file is among others, with its bytes.
fn is_file_of(file: &Text, others: &[Text]) -> bool {
    match find(others, &file.name) {
        Some(twin) => twin.bytes == file.bytes,
        None => false,
    }
}

/// Whether a run has written the logs that another one has.
fn has_logs_of(run: &Outcome, other: &Outcome) -> bool {
    for file in &other.written {
        if file.name.starts_with(b"log_") && !is_file_of(file, &run.written) {
            return false;
        }
    }
    true
}

/// The words of a replay under the journal that a run wrote.
fn replay_words(alloc: Global, others: &[Word]) -> Result<Vec<Word>, AllocError> {
    let mut words = words_for(alloc, b"replay", others)?;
    words.push(Word::from_bytes(alloc, JOURNAL)?)?;
    Ok(words)
}

/// Whether a run, whose words after the command are given, came to what its own journal comes to on one thread.
fn is_replayed(
    alloc: Global,
    given: Given,
    run: &Outcome,
    journal: &Text,
) -> Result<bool, AllocError> {
    let words = replay_words(alloc, given.words)?;
    let replay = replay_of(alloc, given.with_words(&words), journal);
    drop(words);
    let replay = replay?;
    let is_same = replay.is_same(run);
    drop(replay);
    Ok(is_same)
}

/// Whether a run has the status and the logs of another one.
fn is_alike(run: &Outcome, other: &Outcome) -> bool {
    run.status == other.status && has_logs_of(run, other) && has_logs_of(other, run)
}

/// Whether a run by threads, whose words after the command are given, came to what it is to: to the same as on one
/// thread. With an asynchronous thread, whose rounds are published when they are done, it has the status and the logs
/// of that run, and all else as its own journal says; but where no start is admitted each round is done when it is
/// asked for, as on one thread.
fn is_right(
    alloc: Global,
    given: Given,
    outcome: &Outcome,
    run: &Outcome,
    refused: &[u64],
) -> Result<bool, AllocError> {
    // A journal that was there already, and was written as it is, is not among the files that are new.
    let journal = find(&run.written, JOURNAL).or(find(given.before, JOURNAL));
    match journal {
        Some(journal) if refused.len() < ALL.len() && has_rounds(given.before) => {
            Ok(is_alike(run, outcome) && is_replayed(alloc, given, run, journal)?)
        }
        _ => Ok(outcome.is_same(run)),
    }
}

/// What a command comes to by threads.
#[derive(Clone, Copy, Drop)]
pub(crate) struct ByThreads {
    /// It comes to what it is to, whichever starts are refused.
    pub(crate) is_same: bool,
    /// How many of the starts that it asks for are refused.
    pub(crate) starts: u64,
}

/// What a run, whose words after the command are given, comes to by threads where these starts are refused.
fn refusing<R: Threads + Wait + Copy + Send + Drop + 'static>(
    rt: R,
    alloc: Global,
    given: Given,
    outcome: &Outcome,
    refused: &[u64],
) -> Result<ByThreads, AllocError> {
    let words = words_for(alloc, b"run", given.words)?;
    let done = in_threads_of(rt, alloc, given.with_words(&words), refused);
    drop(words);
    let (run, starts) = done?;
    let is_same = is_right(alloc, given, outcome, &run, refused);
    drop(run);
    Ok(ByThreads {
        is_same: is_same?,
        starts,
    })
}

/// What a run on one thread that came to this comes to by threads, as many as are admitted, with the number of threads
/// that it asks for. Other commands are not run by threads.
pub(crate) fn by_threads<R: Threads + Wait + Copy + Send + Drop + 'static>(
    rt: R,
    alloc: Global,
    given: Given,
    outcome: &Outcome,
) -> Result<ByThreads, AllocError> {
    let mut seen = ByThreads {
        is_same: true,
        starts: 0,
    };
    let Some(others) = serial_words(given.words) else {
        return Ok(seen);
    };
    for refused in REFUSED {
        let run = refusing(rt, alloc, given.with_words(others), outcome, refused)?;
        seen.is_same = seen.is_same && run.is_same;
        // Where all starts are refused, the last time, each that was asked for is counted.
        seen.starts = run.starts;
    }
    Ok(seen)
}
