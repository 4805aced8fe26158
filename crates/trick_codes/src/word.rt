//! Words: which of some texts stands at the front.

ghost use Rattle.std.specs.Prelude.{◌≡◌, ◌<◌, IfOk, length};
ghost use Rattle.trick_codes.specs.Code.{begins_word, behind as behind_of, is_there, one_of as one_of_code, read};
ghost use Rattle.trick_codes.specs.Gives.{beside, bytes_of, IsBehind, Reads};

use crate::field::byte;
use crate::miss::Miss;

/// Whether a word stands at the front of this rest.
pub fn stands_at(rest: &[u8], word: &[u8]) -> bool
    ensures { result ≡ is_there (behind_of word.now rest.now) }
{
    let mut here = rest;
    for b in word {
        let Ok(after) = byte(here, *b) else {
            return false;
        };
        here = after;
    }
    true
}

/// What stands after a word at the front of this rest.
pub fn behind<'a>(rest: &'a [u8], word: &[u8]) -> Option<&'a [u8]>
    ensures { IsBehind result (behind_of word.now rest.now) }
{
    let mut here = rest;
    for b in word {
        let Ok(after) = byte(here, *b) else {
            return None;
        };
        here = after;
    }
    Some(here)
}

// Whether this rest is a prefix of one of the words.
fn begins_one(words: &[&[u8]], rest: &[u8]) -> bool
    ensures { result ≡ begins_word (bytes_of words.now) rest.now }
{
    for word in words {
        if stands_at(word, rest) {
            return true;
        }
    }
    false
}

/// One of these words, by its place in the list. The cost grows with the words.
pub fn one_of<'a>(words: &[&[u8]], rest: &'a [u8]) -> Result<(usize, &'a [u8]), Miss>
    ensures told { Reads beside result (read (one_of_code (bytes_of words.now)) rest.now) }
    ensures place { IfOk result (λ x. x.0 < length words.now) }
{
    for (place, word) in words.iter().enumerate() {
        if let Some(after) = behind(rest, word) {
            return Ok((place, after));
        }
    }
    if begins_one(words, rest) {
        return Err(Miss::Ends);
    }
    Err(Miss::Differs)
}
