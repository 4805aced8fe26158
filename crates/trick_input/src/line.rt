//! How a line is read by the table of forms.

ghost use Rattle.std.specs.Prelude.{◌≡◌, None, Some, if◌then◌else◌};
ghost use Rattle.trick_input.specs.Forms.{after, form_of, further, is_due, next_of, outcome_of, walk, walk_of, at_end};
ghost use Rattle.trick_input.specs.Lexemes.{classes};
ghost use Rattle.trick_input.specs.Seen.{all_seen};

use crate::class::Class;
use crate::form::{Piece, Row, Sort, fits, pieces, rows};
use crate::lexeme::InputLexeme;

/// Where a form stands: how many tokens are left, and whether a literal is due.
#[derive(Clone, Copy, PartialEq, Eq)]
pub struct Place {
    pub left: usize,
    pub due: bool,
}

/// Where in the rest of a path.
#[derive(Clone, Copy, PartialEq, Eq)]
pub enum Inside {
    Nowhere,
    Member,
    Index,
    EndIndex,
}

fn next_if(test: bool, inside: Inside, form: &[Piece]) -> Option<(Inside, &[Piece])>
    ensures { next_of result ≡ (if test then Some (form_of inside form.now) else None) }
{
    if test { Some((inside, form)) } else { None }
}

// What is due after a token.
fn next(inside: Inside, form: &[Piece], word: Class) -> Option<(Inside, &[Piece])>
    ensures { next_of result ≡ after (form_of inside form.now) word }
{
    match inside {
        Inside::Member => next_if(word.is_name(), Inside::Nowhere, form),
        Inside::Index => next_if(fits(Sort::Number, word), Inside::EndIndex, form),
        Inside::EndIndex => next_if(word.is(Class::CloseBracket), Inside::Nowhere, form),
        Inside::Nowhere => match form {
            [] => None,
            [Piece::One(sort), rest @ ..] => next_if(fits(*sort, word), Inside::Nowhere, rest),
            [Piece::Path, rest @ ..] => {
                if word.is(Class::Dot) {
                    Some((Inside::Member, form))
                } else if word.is(Class::OpenBracket) {
                    Some((Inside::Index, form))
                } else if word.is(Class::Assign) {
                    Some((Inside::Nowhere, rest))
                } else {
                    None
                }
            }
        },
    }
}

fn is_due(inside: Inside, form: &[Piece]) -> bool
    ensures { result ≡ is_due (form_of inside form.now) }
{
    next(inside, form, Class::Zero).is_some()
}

fn at_end(inside: Inside, form: &[Piece]) -> Option<Place>
    ensures { walk_of result ≡ at_end (form_of inside form.now) }
{
    if inside == Inside::Nowhere && form.is_empty() {
        return None;
    }
    Some(Place {
        left: 0,
        due: is_due(inside, form),
    })
}

/// How far a form goes on with a line; none where it goes on to its end.
pub fn walk(form: &[Piece], line: &[InputLexeme]) -> Option<Place>
    ensures { walk_of result ≡ walk form.now (classes (all_seen line.now)) }
{
    let mut inside = Inside::Nowhere;
    let mut form = form;
    let mut rest = line;
    while let [token, after @ ..] = rest {
        let Some((then, due)) = next(inside, form, token.class) else {
            return Some(Place {
                left: rest.len(),
                due: is_due(inside, form),
            });
        };
        inside = then;
        form = due;
        rest = after;
    }
    at_end(inside, form)
}

fn further(place: Place, other: Place) -> Place
    ensures { result ≡ further place other.left other.due }
{
    if other.left < place.left {
        other
    } else if place.left < other.left {
        place
    } else {
        Place {
            left: place.left,
            due: place.due || other.due,
        }
    }
}

/// The row that a line has the form of, or the place from which no row goes on.
pub fn row_of(line: &[InputLexeme]) -> Result<Row, Place>
    ensures { result ≡ outcome_of (classes (all_seen line.now)) }
{
    let mut place = Place {
        left: line.len(),
        due: false,
    };
    for row in rows() {
        match walk(pieces(*row), line) {
            None => return Ok(*row),
            Some(other) => place = further(place, other),
        }
    }
    Err(place)
}
