//! Loading.

ghost use Rattle.std.specs.Prelude.{◌≡◌, ◌≤◌, length, pos, codes, map, IfOk, Some, None};
ghost use Rattle.trick_codes.specs.Code.{read};
ghost use Rattle.trick_codes.specs.Gives.{alone, beside, Gives, Reads};
ghost use Rattle.trick_codes.specs.Lines.{fed, read_lines};
ghost use Rattle.trick_codes.specs.Loads.{Loads};
ghost use Rattle.trick_codes.specs.Named.{named, none_or, row as row_code, row_where};
ghost use Rattle.trick_codes_example.specs.Panel.{
  gauge_lines,
  last_line,
  mode_code,
  mode_line,
  note_line,
  notes_lines,
  notes_of,
  panel,
  ranges_of,
};

use crate::file::{Gauge, Mode, Readings};
use std::alloc::{AllocError, Global};
use trick_base::Items;
use trick_codes::{
    LineStop, LoadFault, Miss, Range, end_line, feed, integer_line, kind_of, number_line, one_of,
    row_or_none, set_indexed, title, whole,
};

fn mode_bytes(rest: &[u8]) -> Result<(Mode, &[u8]), Miss>
    ensures { Reads beside result (read (fed (named (codes "mode") mode_code)) rest.now) }
{
    let rest = title(b"mode", rest)?;
    let (place, rest) = one_of(&[b"Run;", b"Freeze;"], rest)?;
    let rest = feed(rest)?;
    if place == 0 {
        return Ok((Mode::Run, rest));
    }
    Ok((Mode::Freeze, rest))
}

#[tactic(auto, unfolding(crate::specs::Panel::mode_line))]
fn mode(rest: &[u8]) -> Result<(Mode, &[u8]), LineStop>
    ensures { Gives beside result (read_lines mode_line rest.now) }
{
    match mode_bytes(rest) {
        Ok((mode, after)) => Ok((mode, after)),
        Err(Miss::Ends) => Err(LineStop::Cut),
        Err(Miss::Differs) => Err(LineStop::Wrong(kind_of(b"mode", 0, rest), rest)),
    }
}

#[tactic(auto, unfolding(crate::specs::Panel::gauge_lines))]
fn values<'a>(
    alloc: Global,
    gauges: &[Gauge],
    rest: &'a [u8],
) -> Result<(Vec<i64>, &'a [u8]), LineStop<'a>>
    ensures { Gives (λ x. (x.0.items, x.1.now)) result (read_lines (gauge_lines gauges.now) rest.now) }
{
    let mut found = Vec::new(alloc);
    let mut rest = rest;
    for gauge in gauges {
        let (number, after) = integer_line(gauge.name.as_slice(), gauge.range, rest)?;
        found.push(number)?;
        rest = after;
    }
    Ok((found, rest))
}

fn ranges(alloc: Global, gauges: &[Gauge]) -> Result<Vec<Range>, AllocError>
    ensures { IfOk result (λ r. r.items ≡ ranges_of gauges.now) }
{
    let mut found = Vec::new(alloc);
    for gauge in gauges {
        found.push(gauge.range)?;
    }
    Ok(found)
}

fn last_bytes<'a>(
    ranges: &[Range],
    into: &mut [i64],
    rest: &'a [u8],
) -> Result<(bool, &'a [u8]), Miss>
    requires { length into.old ≡ length ranges.now }
    ensures { Reads (λ x. (row_where x.0 into.new, x.1.now)) result
        (read (fed (named (codes "last") (none_or (row_code ranges.now)))) rest.now) }
{
    let rest = title(b"last", rest)?;
    let (found, rest) = row_or_none(ranges, into, rest)?;
    let rest = feed(rest)?;
    Ok((found, rest))
}

#[tactic(auto, unfolding(crate::specs::Panel::last_line))]
fn last<'a>(
    alloc: Global,
    ranges: &[Range],
    rest: &'a [u8],
) -> Result<(Option<Items<i64>>, &'a [u8]), LineStop<'a>>
    ensures { Gives beside result (read_lines (last_line ranges.now) rest.now) }
{
    let mut row = vec![in alloc; 0; ranges.len()]?;
    match last_bytes(ranges, &mut row, rest) {
        Ok((true, after)) => Ok((Some(Items::from_vec(row)), after)),
        Ok((false, after)) => Ok((None, after)),
        Err(Miss::Ends) => Err(LineStop::Cut),
        Err(Miss::Differs) => Err(LineStop::Wrong(kind_of(b"last", ranges.len(), rest), rest)),
    }
}

#[tactic(auto, unfolding(crate::specs::Panel::note_line))]
fn note<'a>(
    name: &mut Vec<u8>,
    place: usize,
    rest: &'a [u8],
) -> Result<(u64, &'a [u8]), LineStop<'a>>
    ensures { Gives beside result (read_lines (note_line place) rest.now) }
{
    set_indexed(name, b"note", place)?;
    number_line(name, 0, 4_294_967_295, rest)
}

#[tactic(auto, using(trick_codes::proofs::Each::left), unfolding(crate::specs::Panel::notes_of))]
fn note_list<'a>(
    alloc: Global,
    count: usize,
    rest: &'a [u8],
) -> Result<(Vec<u64>, &'a [u8]), LineStop<'a>>
    ensures { Gives (λ x. (x.0.items, x.1.now)) result (read_lines (notes_of count) rest.now) }
{
    let mut found = Vec::new(alloc);
    let mut name = Vec::new(alloc);
    let mut here = rest;
    for place in 0..count {
        let (number, after) = note(&mut name, place, here)?;
        found.push(number)?;
        here = after;
    }
    Ok((found, here))
}

#[tactic(auto, unfolding(crate::specs::Panel::notes_lines))]
fn notes<'a>(alloc: Global, rest: &'a [u8]) -> Result<(Vec<u64>, &'a [u8]), LineStop<'a>>
    ensures { Gives (λ x. (x.0.items, x.1.now)) result (read_lines notes_lines rest.now) }
{
    let (count, rest) = number_line(b"notes", 0, 1000, rest)?;
    note_list(alloc, count as usize, rest)
}

#[tactic(auto, unfolding(crate::specs::Panel::panel))]
fn readings<'a>(
    alloc: Global,
    gauges: &[Gauge],
    rest: &'a [u8],
) -> Result<(Readings, &'a [u8]), LineStop<'a>>
    ensures { Gives beside result (read_lines (panel gauges.now) rest.now) }
{
    let (_, rest) = number_line(b"panel", 1, 1, rest)?;
    let (turn, rest) = number_line(b"turn", 0, 9_223_372_036_854_775_807, rest)?;
    let (mode, rest) = mode(rest)?;
    let (values, rest) = values(alloc, gauges, rest)?;
    let ranges = ranges(alloc, gauges)?;
    let (last, rest) = last(alloc, &ranges, rest)?;
    let (notes, rest) = notes(alloc, rest)?;
    let rest = end_line(rest)?;
    let readings = Readings {
        turn,
        mode,
        values: Items::from_vec(values),
        last,
        notes: Items::from_vec(notes),
    };
    Ok((readings, rest))
}

/// The readings of a panel's file, or why the text is none.
pub fn load(alloc: Global, gauges: &[Gauge], text: &[u8]) -> Result<Readings, LoadFault>
    ensures { Loads (λ r. r) (panel gauges.now) text.now result }
{
    whole(text, readings(alloc, gauges, text))
}
