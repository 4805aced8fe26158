//! Printing. An error leaves a part of what is appended after the text.

ghost use Rattle.std.specs.Prelude.{◌≡◌, ◌++◌, IfOk, OnOk, codes, decimal};
ghost use Rattle.trick_model.specs.Journal.{cause_text, entry_line, entry_text, first_lines, journal_text, last_line, noted_lines};

use itoa::Buffer;
use std::alloc::{AllocError, Global};
use trick_model::{Cause, Entry, Journal};

fn cause_word(cause: Cause) -> &'static [u8]
    ensures { result.now ≡ cause_text cause }
{
    match cause {
        Cause::Exit => b"Exit",
        Cause::HungUp => b"HungUp",
        Cause::LinkFault => b"LinkFault",
        Cause::LongLine => b"LongLine",
        Cause::Slow => b"Slow",
        Cause::NoThread => b"NoThread",
        Cause::OutOfMemory => b"OutOfMemory",
    }
}

// Appends a word and a number.
fn push_counted(text: &mut Vec<u8>, word: &[u8], number: u64) -> Result<(), AllocError>
    ensures { OnOk result (text.new.items ≡ text.old.items ++ word.now ++ decimal number) }
{
    text.extend_from_slice(word)?;
    text.extend_from_slice(Buffer::new().format(number).as_bytes())
}

// Appends an entry as it stands after its turn.
fn push_entry(text: &mut Vec<u8>, entry: &Entry) -> Result<(), AllocError>
    ensures { OnOk result (text.new.items ≡ text.old.items ++ entry_text entry.now) }
{
    match entry {
        Entry::Join { session } => push_counted(text, b"join ", u64::from(*session)),
        Entry::Said { session, line } => {
            push_counted(text, b"cmd ", u64::from(*session))?;
            text.extend_from_slice(b" ")?;
            text.extend_from_slice(line.as_slice())
        }
        Entry::Leave { session, cause } => {
            push_counted(text, b"leave ", u64::from(*session))?;
            text.extend_from_slice(b" ")?;
            text.extend_from_slice(cause_word(*cause))
        }
        Entry::Publish { thread } => push_counted(text, b"publish ", u64::from(*thread)),
    }
}

/// Appends the line of an entry.
pub fn push_entry_line(text: &mut Vec<u8>, turn: u64, entry: &Entry) -> Result<(), AllocError>
    ensures { OnOk result (text.new.items ≡ text.old.items ++ entry_line turn entry.now) }
{
    push_counted(text, b"", turn)?;
    text.extend_from_slice(b" ")?;
    push_entry(text, entry)?;
    text.extend_from_slice(b"\n")
}

/// Appends the first two lines of a journal that begins at this turn.
pub fn push_first_lines(text: &mut Vec<u8>, from: u64) -> Result<(), AllocError>
    ensures { OnOk result (text.new.items ≡ text.old.items ++ first_lines from) }
{
    push_counted(text, b"tricks journal 1\nfrom ", from)?;
    text.extend_from_slice(b"\n")
}

/// Appends the last line of a journal that ends at this turn.
pub fn push_last_line(text: &mut Vec<u8>, end: u64) -> Result<(), AllocError>
    ensures { OnOk result (text.new.items ≡ text.old.items ++ last_line end) }
{
    push_counted(text, b"end ", end)?;
    text.extend_from_slice(b"\n")
}

fn push_entries(text: &mut Vec<u8>, entries: &[(u64, Entry)]) -> Result<(), AllocError>
    ensures { OnOk result (text.new.items ≡ text.old.items ++ noted_lines entries.now) }
{
    for noted in entries {
        push_entry_line(text, noted.0, &noted.1)?;
    }
    Ok(())
}

/// The text of a journal. docs/FORMATS.md has its form. The only refusal is for want of memory.
pub fn print(alloc: Global, journal: &Journal) -> Result<Vec<u8>, AllocError>
    ensures { IfOk result (λ text. text.items ≡ journal_text journal.now.from journal.now.entries journal.now.end) }
{
    let mut text = Vec::new(alloc);
    push_first_lines(&mut text, journal.from)?;
    push_entries(&mut text, journal.entries.as_slice())?;
    push_last_line(&mut text, journal.end)?;
    Ok(text)
}
