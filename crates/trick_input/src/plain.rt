//! `trick.sim_services.` is read as `trick.`.

ghost use Rattle.std.specs.Prelude.{◌≡◌, ◌++◌, ◌≤◌, ◌<◌, IfOk, drop, length, take};
ghost use Rattle.trick_input.specs.Lexemes.{is_services, plain};
ghost use Rattle.trick_input.specs.Seen.{all_seen, seen};

use crate::class::Class;
use crate::lexeme::InputLexeme;
use std::alloc::{AllocError, Global};

// Whether the words are `trick.sim_services`.
fn is_services(trick: &InputLexeme, dot: &InputLexeme, services: &InputLexeme) -> bool
    ensures { result ≡ is_services (seen trick.now) (seen dot.now) (seen services.now) }
{
    trick.class.is(Class::Trick) && dot.class.is(Class::Dot) && services.class.is(Class::Services)
}

// How many words of the front count, and how many were looked at.
fn front(cut: bool, line: &[InputLexeme]) -> (usize, usize)
    requires { 0 < length line.now }
    ensures plain { plain cut (all_seen line.now)
        ≡ all_seen (take result.0 line.now) ++ plain cut (all_seen (drop result.1 line.now)) }
    ensures some { 0 < result.1 }
    ensures kept { result.0 ≤ result.1 }
    ensures within { result.1 ≤ length line.now }
{
    match line {
        [trick, dot, services, point, ..] => {
            if is_services(trick, dot, services) && point.class.is(Class::Dot) {
                (2, 4)
            } else {
                (1, 1)
            }
        }
        [trick, dot, services] => {
            if cut && is_services(trick, dot, services) {
                (2, 3)
            } else {
                (3, 3)
            }
        }
        _ => (1, 1),
    }
}

/// The words of a line that count; `cut` says that a fault of the text stands after them.
pub fn plain<'t>(
    alloc: Global,
    cut: bool,
    line: &[InputLexeme<'t>],
) -> Result<Vec<InputLexeme<'t>>, AllocError>
    ensures { IfOk result (λ found. all_seen found.items ≡ plain cut (all_seen line.now)) }
{
    let mut found = Vec::new(alloc);
    let mut rest = line;
    while !rest.is_empty() {
        let (kept, len) = front(cut, rest);
        found.extend_from_slice(&rest[..kept])?;
        rest = &rest[len..];
    }
    Ok(found)
}
