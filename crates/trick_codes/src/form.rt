//! The form of a line, `name = value;` and a line feed, and what is wrong with a line.

ghost use Rattle.std.specs.Prelude.{◌≡◌, ◌<◌, IfSome, length};
ghost use Rattle.trick_codes.specs.Forms.{
  are_numbers as are_numbers_of,
  equals_place,
  kind_of as kind_of_line,
  next_place as next_place_of,
};
ghost use Rattle.trick_codes.specs.Lines.{first_line as first_line_of};

use crate::kind::Kind;
use crate::word::stands_at;

/// Where a byte stands among numbers with commas between.
#[derive(Clone, Copy, Debug, PartialEq, Eq)]
pub enum Place {
    Start,
    Minus,
    Zero,
    Digit,
    Astray,
}

// The place of the first ` = `.
fn place_of_equals(line: &[u8]) -> Option<usize>
    ensures place { result ≡ equals_place line.now }
    ensures below { IfSome result (λ i. i < length line.now) }
{
    let mut at = 0;
    let mut here = line;
    while let [_, after @ ..] = here {
        if stands_at(here, b" = ") {
            return Some(at);
        }
        at += 1;
        here = after;
    }
    None
}

/// The line with which this rest begins, with its line feed if it has one.
pub fn first_line(rest: &[u8]) -> &[u8]
    ensures { result.now ≡ first_line_of rest.now }
{
    let mut length = 0;
    let mut here = rest;
    while let [next, after @ ..] = here {
        length += 1;
        if *next == 10 {
            break;
        }
        here = after;
    }
    let (line, _) = rest.split_at(length);
    line
}

fn next_place(at: Place, byte: u8) -> Place
    ensures { result ≡ next_place_of at byte }
{
    let is_first_digit = 49 <= byte && byte <= 57;
    match at {
        Place::Start => {
            if byte == 45 {
                Place::Minus
            } else if byte == 48 {
                Place::Zero
            } else if is_first_digit {
                Place::Digit
            } else {
                Place::Astray
            }
        }
        Place::Minus => {
            if is_first_digit {
                Place::Digit
            } else {
                Place::Astray
            }
        }
        Place::Zero => {
            if byte == 44 {
                Place::Start
            } else {
                Place::Astray
            }
        }
        Place::Digit => {
            if byte == 44 {
                Place::Start
            } else if 48 <= byte && byte <= 57 {
                Place::Digit
            } else {
                Place::Astray
            }
        }
        Place::Astray => Place::Astray,
    }
}

/// Whether these bytes are so many numbers in decimal with commas between, each without `+`, leading
/// zeros and a minus before a 0.
pub fn are_numbers(count: usize, bytes: &[u8]) -> bool
    ensures { result ≡ are_numbers_of count bytes.now }
{
    let mut at = Place::Start;
    let mut commas = 0;
    for b in bytes {
        at = next_place(at, *b);
        if *b == 44 {
            commas += 1;
        }
    }
    matches!(at, Place::Zero | Place::Digit) && commas + 1 == count
}

/// What is wrong with the line with which this rest begins, where one with this name and so many
/// numbers is due. No name is due where the line is `end;`.
pub fn kind_of(name: &[u8], count: usize, rest: &[u8]) -> Kind
    ensures { result ≡ kind_of_line name.now count (first_line_of rest.now) }
{
    let line = first_line(rest);
    let Some(place) = place_of_equals(line) else {
        return Kind::BadLine;
    };
    if !(1 <= place && place + 5 <= line.len() && &line[line.len() - 2..] == b";\n".as_slice()) {
        return Kind::BadLine;
    }
    if &line[..place] != name {
        return Kind::WrongPlan;
    }
    if are_numbers(count, &line[place + 3..line.len() - 2]) {
        return Kind::OutOfRange;
    }
    Kind::BadLine
}
