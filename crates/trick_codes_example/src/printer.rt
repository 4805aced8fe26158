//! Printing.

ghost use Rattle.std.specs.Prelude.{◌≡◌, ◌≤◌, ◌<◌, ◌++◌, IfOk, OnOk, length};
ghost use Rattle.trick_codes.specs.Lines.{text as text_of, Holds};
ghost use Rattle.trick_codes_example.specs.Panel.{first_text, gauge_lines, last_lines_text, last_text, mode_line, note_line, notes_lines, notes_of, panel};

use crate::file::{Gauge, Mode, Readings};
use std::alloc::{AllocError, Global};
use trick_base::Items;
use trick_codes::{push_integer, push_line, push_number, push_row, push_title, set_indexed};

#[tactic(auto, unfolding(crate::specs::Panel::mode_line))]
fn push_mode(text: &mut Vec<u8>, mode: Mode) -> Result<(), AllocError>
    ensures { OnOk result (text.new.items ≡ text.old.items ++ text_of mode_line mode) }
{
    match mode {
        Mode::Run => push_line(text, b"mode", b"Run"),
        Mode::Freeze => push_line(text, b"mode", b"Freeze"),
    }
}

#[tactic(auto, unfolding(crate::specs::Panel::gauge_lines))]
fn push_values(text: &mut Vec<u8>, gauges: &[Gauge], values: &[i64]) -> Result<(), AllocError>
    requires { length values.now ≡ length gauges.now }
    ensures { OnOk result (text.new.items ≡ text.old.items ++ text_of (gauge_lines gauges.now) values.now) }
{
    for i in 0..gauges.len() {
        push_integer(text, gauges[i].name.as_slice(), values[i])?;
    }
    Ok(())
}

fn push_last(text: &mut Vec<u8>, last: &Option<Items<i64>>) -> Result<(), AllocError>
    ensures { OnOk result (text.new.items ≡ text.old.items ++ last_text last.now) }
{
    match last {
        None => push_line(text, b"last", b"none"),
        Some(row) => {
            push_title(text, b"last")?;
            push_row(text, row.as_slice())?;
            text.extend_from_slice(b"\n")
        }
    }
}

#[tactic(auto, unfolding(crate::specs::Panel::note_line))]
fn push_note(
    text: &mut Vec<u8>,
    name: &mut Vec<u8>,
    place: usize,
    note: u64,
) -> Result<(), AllocError>
    ensures { OnOk result (text.new.items ≡ text.old.items ++ text_of (note_line place) note) }
{
    set_indexed(name, b"note", place)?;
    push_number(text, name, note)
}

#[tactic(auto, unfolding(crate::specs::Panel::notes_of))]
fn push_note_list(alloc: Global, text: &mut Vec<u8>, notes: &[u64]) -> Result<(), AllocError>
    ensures { OnOk result (text.new.items ≡ text.old.items ++ text_of (notes_of (length notes.now)) notes.now) }
{
    let mut name = Vec::new(alloc);
    for place in 0..notes.len() {
        push_note(text, &mut name, place, notes[place])?;
    }
    Ok(())
}

#[tactic(auto, unfolding(crate::specs::Panel::notes_lines))]
fn push_notes(alloc: Global, text: &mut Vec<u8>, notes: &[u64]) -> Result<(), AllocError>
    ensures { OnOk result (text.new.items ≡ text.old.items ++ text_of notes_lines notes.now) }
{
    push_number(text, b"notes", notes.len() as u64)?;
    push_note_list(alloc, text, notes)
}

fn push_first(text: &mut Vec<u8>, readings: &Readings) -> Result<(), AllocError>
    ensures { OnOk result (text.new.items ≡ text.old.items ++ first_text readings.now) }
{
    push_number(text, b"panel", 1)?;
    push_number(text, b"turn", readings.turn)?;
    push_mode(text, readings.mode)
}

fn push_last_lines(alloc: Global, text: &mut Vec<u8>, readings: &Readings) -> Result<(), AllocError>
    ensures { OnOk result (text.new.items ≡ text.old.items ++ last_lines_text readings.now) }
{
    push_last(text, &readings.last)?;
    push_notes(alloc, text, readings.notes.as_slice())?;
    text.extend_from_slice(b"end;\n")
}

/// The file of a panel of these gauges, of which the readings are right.
pub fn print(alloc: Global, gauges: &[Gauge], readings: &Readings) -> Result<Vec<u8>, AllocError>
    requires { Holds (panel gauges.now) readings.now }
    ensures { IfOk result (λ text. text.items ≡ text_of (panel gauges.now) readings.now) }
{
    let mut text = Vec::new(alloc);
    push_first(&mut text, readings)?;
    push_values(&mut text, gauges, readings.values.as_slice())?;
    push_last_lines(alloc, &mut text, readings)?;
    Ok(text)
}
