//! Rows: what one line says.

ghost use Rattle.std.specs.Prelude.{◌≡◌, IfOk, codes};
ghost use Rattle.trick_codes.specs.Code.{one_of as one_of_code, read};
ghost use Rattle.trick_codes.specs.Gives.{beside, bytes_of, Reads};
ghost use Rattle.trick_journal.specs.Codes.{
  cause_at,
  cause_words,
  detail_code,
  entry_code,
  join_code,
  leave_code,
  noted_code,
  publish_code,
  row_code,
  said_code,
  session_code,
  turn_code,
};
ghost use Rattle.trick_journal.specs.Told.{entry_in, entry_seen, noted_seen, row_seen, SaidBy, TurnSaid, whole_of};

use std::alloc::{AllocError, Global};
use trick_base::Items;
use trick_codes::{Miss, free, literal, number, one_of};
use trick_model::{Cause, Entry, LAST_TURN};

/// An entry as a line says it.
#[derive(Clone, Copy, Debug)]
pub(crate) enum ToldEntry<'a> {
    Join { session: u32 },
    Said { session: u32, line: &'a [u8] },
    Leave { session: u32, cause: Cause },
    Publish { thread: u8 },
}

/// The end, or an entry with its turn.
#[derive(Clone, Copy, Debug)]
pub(crate) enum Row<'a> {
    End(u64),
    Note(u64, ToldEntry<'a>),
}

impl ToldEntry<'_> {
    /// The entry, with the bytes of its line.
    pub fn keep(self, alloc: Global) -> Result<Entry, AllocError>
        ensures { IfOk result (λ entry. entry ≡ entry_in self.entry) }
    {
        Ok(match self {
            ToldEntry::Join { session } => Entry::Join { session },
            ToldEntry::Said { session, line } => Entry::Said {
                session,
                line: Items::from_bytes(alloc, line)?,
            },
            ToldEntry::Leave { session, cause } => Entry::Leave { session, cause },
            ToldEntry::Publish { thread } => Entry::Publish { thread },
        })
    }
}

// A session, and this byte after it.
fn session(end: u8, rest: &[u8]) -> Result<(u32, &[u8]), Miss>
    ensures { Reads beside result (read (session_code end) rest.now) }
{
    let (session, rest) = number(1, 4_294_967_295, end, rest)?;
    Ok((session as u32, rest))
}

#[tactic(auto, unfolding(crate::specs::Codes::join_code))]
fn join(rest: &[u8]) -> Result<(ToldEntry, &[u8]), Miss>
    ensures { Reads entry_seen result (read join_code rest.now) }
{
    let (session, rest) = session(b'\n', rest)?;
    Ok((ToldEntry::Join { session }, rest))
}

#[tactic(auto, unfolding(crate::specs::Codes::said_code))]
fn said(rest: &[u8]) -> Result<(ToldEntry, &[u8]), Miss>
    ensures { Reads entry_seen result (read said_code rest.now) }
{
    let (session, rest) = session(b' ', rest)?;
    let (line, rest) = free(4096, b'\n', rest)?;
    Ok((ToldEntry::Said { session, line }, rest))
}

fn cause_of_word(place: usize) -> Cause
    ensures { result ≡ cause_at place }
{
    match place {
        0 => Cause::Exit,
        1 => Cause::HungUp,
        2 => Cause::LinkFault,
        3 => Cause::LongLine,
        4 => Cause::Slow,
        5 => Cause::NoThread,
        _ => Cause::OutOfMemory,
    }
}

// A cause and its line feed.
fn cause(rest: &[u8]) -> Result<(usize, &[u8]), Miss>
    ensures { Reads beside result (read (one_of_code cause_words) rest.now) }
{
    one_of(
        &[
            b"Exit\n",
            b"HungUp\n",
            b"LinkFault\n",
            b"LongLine\n",
            b"Slow\n",
            b"NoThread\n",
            b"OutOfMemory\n",
        ],
        rest,
    )
}

#[tactic(auto, unfolding(crate::specs::Codes::leave_code))]
fn leave(rest: &[u8]) -> Result<(ToldEntry, &[u8]), Miss>
    ensures { Reads entry_seen result (read leave_code rest.now) }
{
    let (session, rest) = session(b' ', rest)?;
    let (place, rest) = cause(rest)?;
    let cause = cause_of_word(place);
    Ok((ToldEntry::Leave { session, cause }, rest))
}

#[tactic(auto, unfolding(crate::specs::Codes::publish_code))]
fn publish(rest: &[u8]) -> Result<(ToldEntry, &[u8]), Miss>
    ensures { Reads entry_seen result (read publish_code rest.now) }
{
    let (thread, rest) = number(1, 15, b'\n', rest)?;
    let thread = thread as u8;
    Ok((ToldEntry::Publish { thread }, rest))
}

// What stands after the word of an entry.
fn detail(place: usize, rest: &[u8]) -> Result<(ToldEntry, &[u8]), Miss>
    ensures { Reads entry_seen result (read (detail_code place) rest.now) }
{
    match place {
        0 => join(rest),
        1 => said(rest),
        2 => leave(rest),
        _ => publish(rest),
    }
}

#[tactic(auto, unfolding(crate::specs::Codes::entry_code))]
fn entry(rest: &[u8]) -> Result<(ToldEntry, &[u8]), Miss>
    ensures { Reads entry_seen result (read entry_code rest.now) }
{
    let (place, rest) = one_of(&[b"join ", b"cmd ", b"leave ", b"publish "], rest)?;
    detail(place, rest)
}

// A word and a turn, and the line feed.
fn turn<'a>(word: &[u8], rest: &'a [u8]) -> Result<(u64, &'a [u8]), Miss>
    ensures { Reads beside result (read (turn_code word.now) rest.now) }
{
    let rest = literal(rest, word)?;
    number(0, LAST_TURN, b'\n', rest)
}

#[tactic(auto, unfolding(crate::specs::Codes::noted_code))]
fn noted(rest: &[u8]) -> Result<((u64, ToldEntry), &[u8]), Miss>
    ensures { Reads noted_seen result (read noted_code rest.now) }
{
    let (turn, rest) = number(0, LAST_TURN, b' ', rest)?;
    let (entry, rest) = entry(rest)?;
    Ok(((turn, entry), rest))
}

// The line of the end, or of an entry.
#[tactic(auto, unfolding(crate::specs::Codes::row_code))]
fn read_row(rest: &[u8]) -> Result<(Row, &[u8]), Miss>
    ensures { Reads row_seen result (read row_code rest.now) }
{
    match rest {
        [] => Err(Miss::Ends),
        [b'e', ..] => {
            let (end, rest) = turn(b"end ", rest)?;
            Ok((Row::End(end), rest))
        }
        [_, ..] => {
            let ((turn, entry), rest) = noted(rest)?;
            Ok((Row::Note(turn, entry), rest))
        }
    }
}

// What is read of a line, where it is the whole line.
fn whole<'a, T: Drop>(read: Result<(T, &'a [u8]), Miss>) -> Option<T>
    ensures { result ≡ whole_of read.entry }
{
    match read {
        Ok((value, [])) => Some(value),
        Ok(_) => None,
        Err(_) => None,
    }
}

/// The entry or the end that a line says, where it says one.
pub(crate) fn said_by(line: &[u8]) -> Option<Row>
    ensures { SaidBy line.now result }
{
    whole(read_row(line))
}

/// The turn that a line says after this word, where it says one.
pub(crate) fn turn_by(word: &[u8], line: &[u8]) -> Option<u64>
    ensures { TurnSaid word.now line.now result }
{
    whole(turn(word, line))
}
