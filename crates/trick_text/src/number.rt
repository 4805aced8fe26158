ghost use Rattle.std.specs.Char.{digit_value, is_ascii_digit};
ghost use Rattle.std.specs.List.{list_all};
ghost use Rattle.std.specs.Prelude.{◌≡◌, ◌<◌, ◌≤◌, MatchOption, IfSome};
ghost use Rattle.std.specs.Str.Parse.{digits_value};
ghost use Rattle.trick_text.specs.Numbers.{is_plain_number, plain_number, whole_value};
ghost use Rattle.trick_text.specs.Tokens.{ReadsAsToken, spelling};

use crate::bytes::begins;
use crate::token::{Token, TokenKind};

/// The largest whole number that a text may hold.
pub const WHOLE_LIMIT: u64 = 9_223_372_036_854_775_808;

// What a digit counts; 36 for a byte that is no digit and no letter.
fn digit_value(byte: u8) -> u8
    ensures value { result ≡ digit_value byte }
    ensures small { result ≤ 36 }
{
    match byte {
        b'0'..=b'9' => byte - b'0',
        b'A'..=b'Z' => byte - b'A' + 10,
        b'a'..=b'z' => byte - b'a' + 10,
        _ => 36,
    }
}

/// The number that digits of this base stand for, where it is not above the limit.
pub fn digits_value(base: u8, digits: &[u8], limit: u64) -> Option<u64>
    requires base { 1 ≤ base }
    ensures value { MatchOption result (limit < digits_value base digits.now)
        (λ n. n ≡ digits_value base digits.now) }
    ensures limit { IfSome result (λ n. n ≤ limit) }
{
    let limit_wide = u128::from(limit);
    let mut value: u128 = 0;
    for digit in digits {
        value = value * u128::from(base) + u128::from(digit_value(*digit));
        if value > limit_wide {
            return None;
        }
    }
    Some(value as u64)
}

/// The number that a whole number's bytes stand for, where it is not above the limit.
pub fn whole_value(bytes: &[u8], limit: u64) -> Option<u64>
    ensures value { MatchOption result (limit < whole_value bytes.now) (λ n. n ≡ whole_value bytes.now) }
    ensures limit { IfSome result (λ n. n ≤ limit) }
{
    if begins(bytes, b"0x") {
        digits_value(16, &bytes[2..], limit)
    } else {
        digits_value(10, bytes, limit)
    }
}

// Whether these are decimal digits alone.
fn are_digits(bytes: &[u8]) -> bool
    ensures { result ≡ list_all is_ascii_digit bytes.now }
{
    bytes.iter().all(|byte| byte.is_ascii_digit())
}

/// Whether these are decimal digits, one at least, with a zero in front only where it stands alone.
pub fn is_plain_number(bytes: &[u8]) -> bool
    ensures { result ≡ is_plain_number bytes.now }
{
    are_digits(bytes) && (!begins(bytes, b"0") || bytes.len() == 1) && !bytes.is_empty()
}

/// The number of plain decimal digits, where it is at most two to the power of 63. Takes no memory.
pub fn plain_number(bytes: &[u8]) -> Option<u64>
    ensures value { result ≡ plain_number bytes.now }
    ensures limit { IfSome result (λ n. n ≤ WHOLE_LIMIT) }
{
    if is_plain_number(bytes) {
        digits_value(10, bytes, WHOLE_LIMIT)
    } else {
        None
    }
}

/// The number that a token of this text stands for, which is a whole number. Takes no memory.
pub fn whole(token: &Token, text: &[u8]) -> u64
    requires token { ReadsAsToken text.now token.now }
    requires kind { token.now.kind ≡ TokenKind.Whole }
    ensures value { result ≡ whole_value (spelling text.now token.now) }
    ensures limit { result ≤ WHOLE_LIMIT }
{
    whole_value(token.spelling(text), WHOLE_LIMIT).unwrap()
}
