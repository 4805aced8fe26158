ghost use Rattle.std.specs.Prelude.{◌≡◌, ◌≤◌};
ghost use Rattle.trick_text.specs.Tokens.{ReadsAsToken, spelling};
ghost use Rattle.trick_text.specs.Values.{number_of};

use crate::number::{WHOLE_LIMIT, plain_number, whole};
use crate::time::seconds;
use crate::token::{Token, TokenKind};

/// The number that a token of this text stands for: of a name the plain number after its first
/// letter, as 12 of `C12`; of a whole number its own; of a decimal number of seconds its tics. It is
/// 0 where there is none, as of a decimal number that is no time. Takes no memory.
pub fn number_of(token: &Token, text: &[u8]) -> u64
    requires token { ReadsAsToken text.now token.now }
    ensures value { result ≡ number_of token.now.kind (spelling text.now token.now) }
    ensures limit { result ≤ WHOLE_LIMIT }
{
    match token.kind {
        TokenKind::Name => plain_number(&token.spelling(text)[1..]).unwrap_or(0),
        TokenKind::Whole => whole(token, text),
        TokenKind::Decimal => seconds(token, text).unwrap_or(0),
        TokenKind::Text | TokenKind::Mark => 0,
    }
}
