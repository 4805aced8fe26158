ghost use Rattle.std.specs.Prelude.{◌≡◌, ◌+◌, ◌*◌, ◌-◌, ◌^◌, ◌<◌, ◌≤◌, ◌↔◌, ◌++◌, ◌==◌, ◌||◌, ◌&&◌, not, nat_lt, position, ℕ, Ok, IfOk, IsErrOf, IsTrue, length};
ghost use Rattle.std.specs.List.{after_first, list_all};
ghost use Rattle.std.specs.Str.Parse.{AllDigits, digits_value};
ghost use Rattle.trick_text.specs.Amounts.{IsAmountOf};
ghost use Rattle.trick_text.specs.Numbers.{whole_value};
ghost use Rattle.trick_text.specs.Seconds.{IsTics, IsTooLarge, is_number, is_point, numerator, places, seconds_of};
ghost use Rattle.trick_text.specs.Tokens.{ReadsAsToken, spelling};

use crate::fault::TimeFault;
use crate::number::{digits_value, whole_value};
use crate::token::Token;
use trick_base::TIC_LIMIT;

const TICS_PER_SECOND: u64 = 1_000_000;

const SECONDS_LIMIT: u64 = 1_000_000_000;

// A number of seconds in tics: the whole tics in it, and whether nothing is left over.
#[derive(Clone, Copy, Debug)]
pub struct Amount {
    pub tics: u64,
    pub is_exact: bool,
}

impl Amount {
    // Whether there are more tics than a time may have.
    fn is_above(&self) -> bool
        ensures { result ≡ (nat_lt TIC_LIMIT self.now.tics
            || ((self.now.tics == TIC_LIMIT) && not self.now.is_exact)) }
    {
        self.tics > TIC_LIMIT || (self.tics == TIC_LIMIT && !self.is_exact)
    }
}

// The tics that the first digits after the point stand for.
fn millionths(digits: &[u8]) -> u64
    requires digits { AllDigits 10 digits.now }
    requires few { length digits.now ≤ 6 }
    ensures value { result ≡ digits_value 10 digits.now * 10 ^ (6 - length digits.now) }
    ensures small { result < 10 ^ 6 }
{
    let value = digits_value(10, digits, TICS_PER_SECOND).unwrap();
    value * 10u64.pow(6 - digits.len() as u32)
}

// Whether these digits are zeros alone.
fn are_zeros(digits: &[u8]) -> bool
    ensures { result ≡ list_all (λ d. d == 48) digits.now }
{
    digits.iter().all(|digit| *digit == b'0')
}

// A decimal number of seconds, by its digits before and after the point.
fn decimal(digits: &[u8], fraction: &[u8]) -> Option<Amount>
    requires { AllDigits 10 fraction.now }
    ensures { IsAmountOf (digits_value 10 (digits.now ++ fraction.now)) (length fraction.now) result }
{
    let seconds = digits_value(10, digits, SECONDS_LIMIT)?;
    let (front, rest) = fraction.split_at(fraction.len().min(6));
    Some(Amount {
        tics: seconds * TICS_PER_SECOND + millionths(front),
        is_exact: are_zeros(rest),
    })
}

// A whole number of seconds.
fn whole(bytes: &[u8]) -> Option<Amount>
    ensures { IsAmountOf (whole_value bytes.now) 0 result }
{
    let seconds = whole_value(bytes, SECONDS_LIMIT)?;
    Some(Amount {
        tics: seconds * TICS_PER_SECOND,
        is_exact: true,
    })
}

// The place of the point.
fn point_of(bytes: &[u8]) -> Option<usize>
    ensures { result ≡ position is_point bytes.now }
{
    bytes.iter().position(|byte| *byte == b'.')
}

// The number of seconds that these bytes stand for.
fn amount_of(bytes: &[u8]) -> Option<Amount>
    requires { AllDigits 10 (after_first is_point bytes.now) }
    ensures { IsAmountOf (numerator bytes.now) (places bytes.now) result }
{
    match point_of(bytes) {
        None => whole(bytes),
        Some(point) => decimal(&bytes[..point], &bytes[point + 1..]),
    }
}

/// The tics of a number of seconds, which a token of this text stands for. Takes no memory.
/// A number above the limit of tics is too large, exact or not; any other that is no whole number
/// of tics is inexact. The fault has the token's line.
pub fn seconds(token: &Token, text: &[u8]) -> Result<u64, TimeFault>
    requires token { ReadsAsToken text.now token.now }
    requires number { IsTrue (is_number token.now.kind) }

    // The time is the number times one million, exactly.
    ensures value { result ≡ seconds_of token.now.line (spelling text.now token.now) }
    ensures exact { IfOk result (λ n. IsTics (spelling text.now token.now) n) }
    ensures limit { IfOk result (λ n. n ≤ TIC_LIMIT) }
    ensures found { (n : ℕ) → n ≤ TIC_LIMIT → IsTics (spelling text.now token.now) n → result ≡ Ok n }

    ensures too_large { IsErrOf result (TimeFault.TimeTooLarge token.now.line)
        ↔ IsTooLarge (spelling text.now token.now) }
    ensures inexact { IsErrOf result (TimeFault.InexactTime token.now.line)
        ↔ (¬ IsTooLarge (spelling text.now token.now)
        × ((n : ℕ) → ¬ IsTics (spelling text.now token.now) n)) }
{
    let line = token.line;
    match amount_of(token.spelling(text)) {
        None => Err(TimeFault::TimeTooLarge { line }),
        Some(amount) => {
            if amount.is_above() {
                Err(TimeFault::TimeTooLarge { line })
            } else if !amount.is_exact {
                Err(TimeFault::InexactTime { line })
            } else {
                Ok(amount.tics)
            }
        }
    }
}
