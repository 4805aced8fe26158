// Numbers among the words.

ghost use Rattle.std.specs.Prelude.{◌≡◌, MatchOption};
ghost use Rattle.std.specs.Char.{is_ascii_digit};
ghost use Rattle.std.specs.List.{list_all};
ghost use Rattle.trick_top_words.specs.Command.{IsNumber};

fn are_digits(bytes: &[u8]) -> bool
    ensures { result ≡ list_all is_ascii_digit bytes.now }
{
    for byte in bytes {
        if !byte.is_ascii_digit() {
            return false;
        }
    }
    true
}

/// The number that from 1 to `longest` decimal digits stand for, where it is from 1 to `most`.
pub(crate) fn number(digits: &str, longest: usize, most: u32) -> Option<u32>
    ensures { MatchOption result ((number : _) → IsNumber longest most digits.now number → ⊥)
        (IsNumber longest most digits.now) }
{
    if digits.len() > longest || !are_digits(digits.as_bytes()) {
        return None;
    }
    match digits.parse::<u32>() {
        Ok(number) if 1 <= number && number <= most => Some(number),
        _ => None,
    }
}
