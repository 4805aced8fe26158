//! Readers of the usual lines.

ghost use Rattle.std.specs.Prelude.{◌≡◌, ◌<◌, ◌+◌, length, drop, pos, [], ◌∷◌, codes, IfOk};
ghost use Rattle.trick_codes.specs.Code.{integer as integer_code, IsWithin, literal as literal_code, number as number_code, one_of as one_of_code, read};
ghost use Rattle.trick_codes.specs.Gives.{alone, beside, bytes_of, Gives, Reads};
ghost use Rattle.trick_codes.specs.Lines.{fed, read_lines};
ghost use Rattle.trick_codes.specs.Named.{
  each_code,
  end_line as end_line_of,
  integer_line as integer_line_of,
  mark_before,
  named,
  none_or,
  number_line as number_line_of,
  row as row_code,
  row_number,
  row_where,
  title as title_of,
  word_line as word_line_of,
};

use crate::field::{byte, integer, literal, number};
use crate::form::kind_of;
use crate::miss::Miss;
use crate::range::Range;
use crate::stop::LineStop;
use crate::word::one_of;

/// A name and ` = `.
#[tactic(auto, using(crate::proofs::Loops::literal_pieces))]
pub fn title<'a>(name: &[u8], rest: &'a [u8]) -> Result<&'a [u8], Miss>
    ensures { Reads alone result (read (literal_code (title_of name.now)) rest.now) }
{
    let rest = literal(rest, name)?;
    literal(rest, b" = ")
}

/// The line feed.
pub fn feed(rest: &[u8]) -> Result<&[u8], Miss>
    ensures { Reads alone result (read (literal_code (10 ∷ [])) rest.now) }
{
    byte(rest, 10)
}

fn number_bytes<'a>(
    name: &[u8],
    least: u64,
    most: u64,
    rest: &'a [u8],
) -> Result<(u64, &'a [u8]), Miss>
    ensures { Reads beside result (read (fed (named name.now (number_code least most 59))) rest.now) }
{
    let rest = title(name, rest)?;
    let (number, rest) = number(least, most, b';', rest)?;
    let rest = feed(rest)?;
    Ok((number, rest))
}

/// The line of a name and a number from the least, which is 0 or 1, to the most.
pub fn number_line<'a>(
    name: &[u8],
    least: u64,
    most: u64,
    rest: &'a [u8],
) -> Result<(u64, &'a [u8]), LineStop<'a>>
    ensures { Gives beside result (read_lines (number_line_of name.now least most) rest.now) }
{
    match number_bytes(name, least, most, rest) {
        Ok((number, after)) => Ok((number, after)),
        Err(Miss::Ends) => Err(LineStop::Cut),
        Err(Miss::Differs) => Err(LineStop::Wrong(kind_of(name, 1, rest), rest)),
    }
}

fn integer_bytes<'a>(name: &[u8], range: Range, rest: &'a [u8]) -> Result<(i64, &'a [u8]), Miss>
    ensures told { Reads beside result (read
        (fed (named name.now (integer_code range.below range.above 59))) rest.now) }
    ensures range { IfOk result (λ x. IsWithin range.below range.above x.0) }
{
    let rest = title(name, rest)?;
    let (number, rest) = integer(range, b';', rest)?;
    let rest = feed(rest)?;
    Ok((number, rest))
}

/// The line of a name and a number of this range.
pub fn integer_line<'a>(
    name: &[u8],
    range: Range,
    rest: &'a [u8],
) -> Result<(i64, &'a [u8]), LineStop<'a>>
    ensures told { Gives beside result (read_lines (integer_line_of name.now range) rest.now) }
    ensures range { IfOk result (λ x. IsWithin range.below range.above x.0) }
{
    match integer_bytes(name, range, rest) {
        Ok((number, after)) => Ok((number, after)),
        Err(Miss::Ends) => Err(LineStop::Cut),
        Err(Miss::Differs) => Err(LineStop::Wrong(kind_of(name, 1, rest), rest)),
    }
}

fn word_bytes<'a>(name: &[u8], words: &[&[u8]], rest: &'a [u8]) -> Result<(usize, &'a [u8]), Miss>
    ensures { Reads beside result (read (fed (named name.now (one_of_code (bytes_of words.now)))) rest.now) }
{
    let rest = title(name, rest)?;
    let (place, rest) = one_of(words, rest)?;
    let rest = feed(rest)?;
    Ok((place, rest))
}

/// The line of a name and one of these words, each with its `;`. What is read is the word's place.
pub fn word_line<'a>(
    name: &[u8],
    words: &[&[u8]],
    rest: &'a [u8],
) -> Result<(usize, &'a [u8]), LineStop<'a>>
    ensures { Gives beside result (read_lines (word_line_of name.now (bytes_of words.now)) rest.now) }
{
    match word_bytes(name, words, rest) {
        Ok((place, after)) => Ok((place, after)),
        Err(Miss::Ends) => Err(LineStop::Cut),
        Err(Miss::Differs) => Err(LineStop::Wrong(kind_of(name, 0, rest), rest)),
    }
}

fn end_bytes(rest: &[u8]) -> Result<&[u8], Miss>
    ensures { Reads alone result (read (fed (literal_code (codes "end;"))) rest.now) }
{
    let rest = literal(rest, b"end;")?;
    feed(rest)
}

/// The line `end;`.
pub fn end_line(rest: &[u8]) -> Result<&[u8], LineStop>
    ensures { Gives alone result (read_lines end_line_of rest.now) }
{
    match end_bytes(rest) {
        Ok(after) => Ok(after),
        Err(Miss::Ends) => Err(LineStop::Cut),
        Err(Miss::Differs) => Err(LineStop::Wrong(kind_of(b"", 0, rest), rest)),
    }
}

// What stands after the number of a row at this place.
#[tactic(auto, using(crate::proofs::Rows::comma_before, crate::proofs::Rows::semicolon_at_end))]
fn mark(ranges: &[Range], place: usize) -> u8
    requires { place < length ranges.now }
    ensures { result ≡ mark_before (drop (place + 1) ranges.now) }
{
    if place + 1 < ranges.len() { b',' } else { b';' }
}

fn row_numbers<'a>(ranges: &[Range], into: &mut [i64], rest: &'a [u8]) -> Result<&'a [u8], Miss>
    requires { length into.old ≡ length ranges.now }
    ensures { Reads (λ after. (into.new, after.now)) result (read (each_code (pos 0) row_number ranges.now) rest.now) }
{
    let mut here = rest;
    for i in 0..ranges.len() {
        let (number, after) = integer(ranges[i], mark(ranges, i), here)?;
        into[i] = number;
        here = after;
    }
    Ok(here)
}

/// A number of each range, with `,` between and `;` at the end, put into the slice in order. A
/// refused row leaves there what was read of it.
pub fn row<'a>(ranges: &[Range], into: &mut [i64], rest: &'a [u8]) -> Result<&'a [u8], Miss>
    requires { length into.old ≡ length ranges.now }
    ensures { Reads (λ after. (into.new, after.now)) result (read (row_code ranges.now) rest.now) }
{
    match ranges {
        [] => byte(rest, b';'),
        [_, ..] => row_numbers(ranges, into, rest),
    }
}

/// `none;`, or a row as above. What is told is whether a row was put into the slice.
pub fn row_or_none<'a>(
    ranges: &[Range],
    into: &mut [i64],
    rest: &'a [u8],
) -> Result<(bool, &'a [u8]), Miss>
    requires { length into.old ≡ length ranges.now }
    ensures { Reads (λ x. (row_where x.0 into.new, x.1.now)) result (read (none_or (row_code ranges.now)) rest.now) }
{
    match rest {
        [] => Err(Miss::Ends),
        [b'n', ..] => {
            let rest = literal(rest, b"none;")?;
            Ok((false, rest))
        }
        [_, ..] => {
            let rest = row(ranges, into, rest)?;
            Ok((true, rest))
        }
    }
}
