//! What a journal is told of a turn.

ghost use Rattle.std.specs.Prelude.{◌≡◌, IfOk};
ghost use Rattle.trick_model.specs.Files.{note};
ghost use Rattle.trick_model.specs.Journal.{entry_lines};
ghost use Rattle.trick_outside.specs.Does.{Does};
ghost use Rattle.trick_exec_tic.specs.Steps.{steps_of};

use std::alloc::{AllocError, Global};
use trick_base::Word;
use trick_journal::push_entry_line;
use trick_model::Entry;
use trick_outside::{Shelf, Stop, append};

// Bytes that the text of a turn's lines has room for at first, for each entry. Longer lines grow it.
const ROOM: usize = 64;

// The lines of entries of a turn.
fn entry_text(alloc: Global, turn: u64, entries: &[Entry]) -> Result<Vec<u8>, AllocError>
    ensures { IfOk result (λ text. text.items ≡ entry_lines turn entries.now) }
{
    let mut text = Vec::with_capacity(alloc, entries.len().saturating_mul(ROOM))?;
    for entry in entries {
        push_entry_line(&mut text, turn, entry)?;
    }
    Ok(text)
}

/// Adds the lines of these entries of a turn to the journal, all in one append. Where there are none it
/// does nothing.
pub fn note<F: Shelf>(
    alloc: Global,
    turn: u64,
    entries: &[Entry],
    shelf: &mut F,
) -> Result<(), Stop>
    ensures { Does F.Shelf shelf.old shelf.new result (steps_of (note turn entries.now)) }
{
    if entries.is_empty() {
        return Ok(());
    }
    let Ok(name) = Word::from_bytes(alloc, b"journal.txt") else {
        return Err(Stop::Memory);
    };
    let Ok(text) = entry_text(alloc, turn, entries) else {
        return Err(Stop::Memory);
    };
    append(shelf, &name, &text)
}
