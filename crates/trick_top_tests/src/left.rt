//! What a run left of which calls outside may have failed, and whether it is what it is to be: the beginning of what
//! the lines of its journal come to. An append in memory adds all of its lines or none.

use crate::plans::Texts;
use crate::runs::{Alone, Came, RIGHT, replay_of, replays};
use std::alloc::{AllocError, Global};
use trick_base::Word;

/// The two lines with which each journal begins.
const FIRST: &[u8] = b"tricks journal 1\nfrom 0\n";

/// The end of a journal to which no run of a test comes.
const FAR: &[u8] = b"end 1000000\n";

/// How it is refused, up to the right number of turns.
const TOO_FAR: &[u8] = b"refused JournalLength 1000000 ";

/// What lets a run go on.
const RUNS: &[u8] = b" cmd 1 trick.exec_run()\n";

// These bytes, and others behind them.
fn joined(alloc: Global, first: &[u8], last: &[u8]) -> Result<Vec<u8>, AllocError> {
    let mut bytes = Vec::from_slice(alloc, first)?;
    bytes.extend_from_slice(last)?;
    Ok(bytes)
}

// These lines of a journal, with the end that is right where this refusal says that theirs is too far.
fn up_to(alloc: Global, lines: &[u8], printed: &[u8]) -> Result<Vec<u8>, AllocError> {
    let Some(turns) = printed.strip_prefix(TOO_FAR) else {
        return Vec::from_slice(alloc, lines);
    };
    let mut whole = joined(alloc, lines, b"end ")?;
    whole.extend_from_slice(turns)?;
    Ok(whole)
}

// The run under these lines of a journal, replayed. It has an end, or is replayed up to where it is over.
fn under(alloc: Global, texts: Texts, lines: &[u8]) -> Result<Alone, AllocError> {
    let far = joined(alloc, lines, FAR)?;
    let other = replay_of(alloc, texts, &far)?;
    let whole = up_to(alloc, lines, &other.printed);
    drop(other);
    replay_of(alloc, texts, &whole?)
}

// Whether each of these files that a run left is a beginning of another run's.
fn are_all_fronts(names: &[Word], came: &Came, other: &Alone) -> bool {
    for name in names {
        match other.file(name.as_slice()) {
            Some(whole) if whole.starts_with(came.file(name.as_slice())) => {}
            _ => return false,
        }
    }
    true
}

// Whether each file that a run left is a beginning of that of its journal's lines.
fn are_fronts(came: &Came, other: &Alone) -> Result<bool, AllocError> {
    let names = came.names()?;
    let are_all = are_all_fronts(&names, came, other);
    drop(names);
    Ok(are_all && other.status == 0)
}

// The same of the run under the lines of its journal, replayed.
fn is_front(alloc: Global, texts: Texts, came: &Came, lines: &[u8]) -> Result<bool, AllocError> {
    let other = under(alloc, texts, lines)?;
    let are_all = are_fronts(came, &other);
    drop(other);
    are_all
}

// Whether there is no other file than the two texts and an empty journal.
fn has_no_run(names: &[Word], came: &Came) -> bool {
    for name in names {
        let is_given = name.is(b"s") || name.is(b"i");
        if !is_given && !(name.is(b"journal.txt") && came.file(b"journal.txt").is_empty()) {
            return false;
        }
    }
    true
}

// Whether no run began: there is no file of it, and the client was sent nothing.
fn is_untouched(came: &Came) -> Result<bool, AllocError> {
    let names = came.names()?;
    let has_no_run = has_no_run(&names, came);
    drop(names);
    Ok(has_no_run && came.sent().unwrap_or(&[]).is_empty())
}

// What is wrong with the files of a run.
fn wrong_files(alloc: Global, texts: Texts, came: &Came) -> Result<&'static str, AllocError> {
    let is_right = if came.failed.shelf == 0 {
        replays(alloc, texts, came)?
    } else {
        let lines = came.file(b"journal.txt");
        if lines.starts_with(FIRST) {
            is_front(alloc, texts, came, lines)?
        } else {
            is_untouched(came)?
        }
    };
    Ok(if is_right { RIGHT } else { "its files" })
}

// Whether the client was sent a beginning of what the lines of the journal come to: of this text where they let the run
// go on, and else of nothing. It is back, and all of a text was sent where nothing failed.
fn is_told(came: &Came, text: &[u8]) -> bool {
    let Some(sent) = came.sent() else {
        return came.has_nobody() && !came.notes(b" join 1\n");
    };
    let text = if came.notes(RUNS) { text } else { &[] };
    let may_lack = came.failed.shelf > 0 || came.failed.starts > 0 || came.has_link_fault();
    text.starts_with(sent) && (may_lack || sent.len() == text.len())
}

// The status of a run of which so many calls failed.
fn due_status(came: &Came) -> u8 {
    if came.failed.sink > 0 {
        8
    } else if came.failed.shelf > 0 {
        5
    } else {
        0
    }
}

// Whether its line is printed as it is due.
fn is_printed(came: &Came) -> bool {
    match came.status {
        0 => came.prints_at_end(b" door=failed\n") == (came.failed.door > 0),
        5 => came.has_printed(b"refused ShelfFault\n"),
        _ => true,
    }
}

// Whether each leave has its cause, where a client neither asks to leave nor hangs up.
fn are_causes(came: &Came) -> bool {
    if came.has_leave(b"NoThread") {
        return came.failed.starts > 0 && !came.has_other_leave(b"NoThread");
    }
    if came.has_leave(b"LinkFault") {
        return came.has_link_fault() && !came.has_other_leave(b"LinkFault");
    }
    !came.has_other_leave(b"LinkFault")
}

/// What is wrong with a run of a plan, or that nothing is. Its client neither asks to leave nor hangs up, is sent
/// nothing before it lets the run go on, and then this text.
pub(crate) fn left(
    alloc: Global,
    texts: Texts,
    came: &Came,
    text: &[u8],
) -> Result<&'static str, AllocError> {
    if came.status != due_status(came) {
        return Ok("its status");
    }
    if came.failed.shelf > 1 || came.failed.sink > 1 || came.failed.door > 1 {
        return Ok("a call after one that failed");
    }
    if !is_printed(came) {
        return Ok("its line");
    }
    if !are_causes(came) {
        return Ok("a leave without its cause");
    }
    if !is_told(came, text) {
        return Ok("what the client was sent");
    }
    wrong_files(alloc, texts, came)
}
