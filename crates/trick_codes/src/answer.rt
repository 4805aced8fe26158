//! The answer for a whole text.

ghost use Rattle.std.specs.Prelude.{◌≡◌, length};
ghost use Rattle.trick_codes.specs.Gives.{Concludes, fault_of};
ghost use Rattle.trick_codes.specs.Loads.{front_of, line_behind};

use crate::kind::Kind;
use crate::load_fault::LoadFault;
use crate::stop::LineStop;

// The place in a text at which this rest of it begins.
fn place_of(text: &[u8], rest: &[u8]) -> usize
    ensures { result ≡ length (front_of text.now rest.now) }
{
    let (front, _) = text.split_at(text.len().saturating_sub(rest.len()));
    front.len()
}

// The number, from 1, of the line of a text at which this rest of it begins.
fn line_of(text: &[u8], rest: &[u8]) -> usize
    ensures { result ≡ line_behind (front_of text.now rest.now) }
{
    let (front, _) = text.split_at(text.len().saturating_sub(rest.len()));
    front.iter().filter(|b| **b == 10).count() + 1
}

/// The refusal of a text at which reading stopped so.
pub fn refusal(text: &[u8], stop: LineStop) -> LoadFault
    ensures { result ≡ fault_of text.now stop.entry }
{
    match stop {
        LineStop::Memory => LoadFault::OutOfMemory,
        LineStop::Cut => LoadFault::Truncated { at: text.len() },
        LineStop::Wrong(Kind::BadLine, rest) => LoadFault::BadLine {
            line: line_of(text, rest),
        },
        LineStop::Wrong(Kind::WrongPlan, rest) => LoadFault::WrongPlan {
            line: line_of(text, rest),
        },
        LineStop::Wrong(Kind::OutOfRange, rest) => LoadFault::OutOfRange {
            line: line_of(text, rest),
        },
    }
}

/// What was read from the front of a text, where nothing stands after it, or the refusal of the
/// text. A refusal drops what was read.
pub fn whole<'a, T: Drop>(
    text: &[u8],
    read: Result<(T, &'a [u8]), LineStop<'a>>,
) -> Result<T, LoadFault>
    ensures { Concludes text.now read.entry result }
{
    match read {
        Ok((value, [])) => Ok(value),
        Ok((_, rest)) => Err(LoadFault::Trailing {
            at: place_of(text, rest),
        }),
        Err(stop) => Err(refusal(text, stop)),
    }
}
