//! Readers within a line. Each takes what stands before it in place, and answers with the rest after.

ghost use Rattle.std.specs.Prelude.{◌≡◌, ◌≤◌, ◌<◌, ◌+◌, ◌-◌, ◌^◌, ℕ, [], ◌∷◌, length, take, drop, IfOk};
ghost use Rattle.trick_codes.specs.Code.{
  digits_at,
  free as free_code,
  free_at,
  integer as integer_code,
  IsWithin,
  literal as literal_code,
  literal_at,
  minus,
  number as number_code,
  number_at,
  negative_of,
  positive_of,
  read,
  zero_at,
};
ghost use Rattle.trick_codes.specs.Gives.{alone, beside, Reads};

use crate::miss::Miss;
use crate::range::Range;

// One byte.
pub(crate) fn byte(rest: &[u8], wanted: u8) -> Result<&[u8], Miss>
    ensures { Reads alone result (literal_at (wanted ∷ []) rest.now) }
{
    match rest {
        [] => Err(Miss::Ends),
        [next, after @ ..] => {
            if *next == wanted {
                Ok(after)
            } else {
                Err(Miss::Differs)
            }
        }
    }
}

/// These bytes.
pub fn literal<'a>(rest: &'a [u8], bytes: &[u8]) -> Result<&'a [u8], Miss>
    ensures { Reads alone result (read (literal_code bytes.now) rest.now) }
{
    let mut rest = rest;
    for b in bytes {
        rest = byte(rest, *b)?;
    }
    Ok(rest)
}

// The digits after those of the first number, and the end.
fn digits(first: u64, most: u64, end: u8, rest: &[u8]) -> Result<(u64, &[u8]), Miss>
    requires { first ≤ most }
    ensures told { Reads beside result (digits_at most end first rest.now) }
    ensures range { IfOk result (λ x. x.0 ≤ most) }
{
    let mut value = first;
    let mut rest = rest;
    while let [next, after @ ..] = rest {
        if *next == end {
            return Ok((value, after));
        }
        if !next.is_ascii_digit() {
            return Err(Miss::Differs);
        }
        let longer = u128::from(value) * 10 + u128::from(*next - 48);
        if longer > u128::from(most) {
            return Err(Miss::Differs);
        }
        value = longer as u64;
        rest = after;
    }
    Err(Miss::Ends)
}

// The end after a single 0.
fn zero(least: u64, end: u8, rest: &[u8]) -> Result<(u64, &[u8]), Miss>
    ensures told { Reads beside result (zero_at least end rest.now) }
    ensures zero { IfOk result (λ x. x.0 ≡ 0) }
{
    if least > 0 {
        return Err(Miss::Differs);
    }
    match rest {
        [] => Err(Miss::Ends),
        [next, after @ ..] => {
            if *next == end {
                Ok((0, after))
            } else {
                Err(Miss::Differs)
            }
        }
    }
}

/// A number from the least, which is 0 or 1, to the most, in decimal and with this byte after it.
/// It has no `+` and no leading zeros.
pub fn number(least: u64, most: u64, end: u8, rest: &[u8]) -> Result<(u64, &[u8]), Miss>
    ensures told { Reads beside result (read (number_code least most end) rest.now) }
    ensures range { IfOk result (λ x. x.0 ≤ most) }
{
    match rest {
        [] => Err(Miss::Ends),
        [next, after @ ..] => {
            if *next == 48 {
                return zero(least, end, after);
            }
            if next.is_ascii_digit() && u64::from(*next - 48) <= most {
                return digits(u64::from(*next - 48), most, end, after);
            }
            Err(Miss::Differs)
        }
    }
}

// The number with a minus.
fn negated(number: u64) -> i64
    requires { number ≤ 2 ^ 63 }
    ensures { result ≡ minus number }
{
    (-i128::from(number)) as i64
}

// What stands after a minus.
fn negative(below: u64, end: u8, rest: &[u8]) -> Result<(i64, &[u8]), Miss>
    requires { below ≤ 2 ^ 63 }
    ensures told { Reads beside result (negative_of (number_at 1 below end rest.now)) }
    ensures range { (above : ℕ) → IfOk result (λ x. IsWithin below above x.0) }
{
    let (size, rest) = number(1, below, end, rest)?;
    Ok((negated(size), rest))
}

// A number without a minus.
fn positive(above: u64, end: u8, rest: &[u8]) -> Result<(i64, &[u8]), Miss>
    requires { above ≤ 2 ^ 63 - 1 }
    ensures told { Reads beside result (positive_of (number_at 0 above end rest.now)) }
    ensures range { (below : ℕ) → IfOk result (λ x. IsWithin below above x.0) }
{
    let (size, rest) = number(0, above, end, rest)?;
    Ok((size as i64, rest))
}

/// A number of this range in decimal, with this byte after it. It has no `+`, no leading zeros,
/// and 0 has no minus.
pub fn integer(range: Range, end: u8, rest: &[u8]) -> Result<(i64, &[u8]), Miss>
    ensures told { Reads beside result (read (integer_code range.below range.above end) rest.now) }
    ensures range { IfOk result (λ x. IsWithin range.below range.above x.0) }
{
    match rest {
        [] => Err(Miss::Ends),
        [next, after @ ..] => {
            if *next == 45 && range.below >= 1 {
                return negative(range.below, end, after);
            }
            positive(range.above, end, rest)
        }
    }
}

// How many bytes stand before this one, which comes after so many at most.
fn free_length(most: usize, end: u8, rest: &[u8]) -> Result<usize, Miss>
    ensures told { Reads (λ n. (take n rest.now, drop (n + 1) rest.now)) result (free_at most end rest.now) }
    ensures inside { IfOk result (λ n. n < length rest.now) }
{
    for (length, next) in rest.iter().enumerate() {
        if *next == end {
            return Ok(length);
        }
        if length == most {
            return Err(Miss::Differs);
        }
    }
    Err(Miss::Ends)
}

/// Bytes without this one, so many at most, and this byte after them.
pub fn free(most: usize, end: u8, rest: &[u8]) -> Result<(&[u8], &[u8]), Miss>
    ensures { Reads (λ x. (x.0.now, x.1.now)) result (read (free_code most end) rest.now) }
{
    let length = free_length(most, end, rest)?;
    Ok((&rest[..length], &rest[length + 1..]))
}
