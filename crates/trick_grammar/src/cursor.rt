ghost use Rattle.std.specs.Prelude.{◌≡◌, ◌∷◌, []};
ghost use Rattle.trick_grammar.specs.Classes.{is_one_of};
ghost use Rattle.std.specs.Str.{bytes_eq};
ghost use Rattle.trick_grammar.specs.Gives.{Gives, class_of, is_in_scope, line_of, text_of};
ghost use Rattle.trick_grammar.specs.Reading.{hinted, read_again, read_token, reason_at, with_hint};
ghost use Rattle.trick_grammar.specs.StartsWith.{next_in, repeats};

use crate::lexeme::{Class, Lexeme};
use crate::refusal::Refusal;
use crate::stop::GrammarStop;

/// The next token, if it is of this class, and the tokens after it.
pub fn take<C: Class>(
    rest: &[Lexeme<C>],
    class: C,
) -> Result<(&Lexeme<C>, &[Lexeme<C>]), GrammarStop<C>>
    ensures { Gives (λ x. (x.0.now, x.1.now)) result
        (read_token C.number class_of (class ∷ []) rest.now) }
{
    match rest {
        [] => Err(GrammarStop::At(Refusal::Expected, rest)),
        [next, after @ ..] => {
            if next.class.is(class) {
                Ok((next, after))
            } else {
                Err(GrammarStop::At(Refusal::Expected, rest))
            }
        }
    }
}

/// The next token, if it is of one of these classes, and the tokens after it.
pub fn take_one_of<'a, C: Class>(
    rest: &'a [Lexeme<C>],
    classes: &[C],
) -> Result<(&'a Lexeme<C>, &'a [Lexeme<C>]), GrammarStop<'a, C>>
    ensures { Gives (λ x. (x.0.now, x.1.now)) result
        (read_token C.number class_of classes.now rest.now) }
{
    match rest {
        [] => Err(GrammarStop::At(Refusal::Expected, rest)),
        [next, after @ ..] => {
            if is_one_of(next.class, classes) {
                Ok((next, after))
            } else {
                Err(GrammarStop::At(Refusal::Expected, rest))
            }
        }
    }
}

/// Whether the next token is of this class.
pub fn next_is<C: Class>(rest: &[Lexeme<C>], class: C) -> bool
    ensures { result ≡ next_in C.number class_of (class ∷ []) rest.now }
{
    match rest {
        [] => false,
        [next, ..] => next.class.is(class),
    }
}

/// Whether the next token is of one of these classes.
pub fn next_is_one_of<C: Class>(rest: &[Lexeme<C>], classes: &[C]) -> bool
    ensures { result ≡ next_in C.number class_of classes.now rest.now }
{
    match rest {
        [] => false,
        [next, ..] => is_one_of(next.class, classes),
    }
}

fn is_one_of<C: Class>(class: C, classes: &[C]) -> bool
    ensures { result ≡ is_one_of C.number class classes.now }
{
    classes.iter().any(|other| class.is(*other))
}

/// The bytes of a token of the text.
pub fn text_of<'a, C>(text: &'a [u8], token: &Lexeme<C>) -> &'a [u8]
    ensures { result.now ≡ text_of text.now token.now }
{
    let end = token.end.min(text.len());
    let start = token.start.min(end);
    &text[start..end]
}

/// The line of the next token, and past the end the last line of the text.
pub fn line_of<C: Class>(rest: &[Lexeme<C>], last_line: u32) -> u32
    ensures { result ≡ line_of last_line rest.now }
{
    match rest {
        [] => last_line,
        [next, ..] => next.line,
    }
}

/// The next token, if it is of this class, and the tokens after it; a token of another class is
/// refused for this reason.
pub fn take_hinted<C: Class>(
    rest: &[Lexeme<C>],
    class: C,
    reason: Refusal,
) -> Result<(&Lexeme<C>, &[Lexeme<C>]), GrammarStop<C>>
    ensures { Gives (λ x. (x.0.now, x.1.now)) result
        (with_hint reason (read_token C.number class_of (class ∷ []) rest.now)) }
{
    match take(rest, class) {
        Ok(taken) => Ok(taken),
        Err(GrammarStop::Memory) => Err(GrammarStop::Memory),
        Err(GrammarStop::At(kind, at)) => Err(GrammarStop::At(hinted(reason, kind), at)),
    }
}

/// The reason where a token was only not expected, else the refusal's own.
pub fn hinted(reason: Refusal, kind: Refusal) -> Refusal
    ensures { result ≡ hinted reason kind }
{
    match kind {
        Refusal::Expected => reason,
        other => other,
    }
}

/// Why the next token is refused where none is due: one of these classes for this reason, another
/// one is not expected.
pub fn reason_at<C: Class>(rest: &[Lexeme<C>], reason: Refusal, classes: &[C]) -> Refusal
    ensures { result ≡ reason_at C.number class_of reason classes.now rest.now }
{
    if next_is_one_of(rest, classes) {
        reason
    } else {
        Refusal::Expected
    }
}

/// Whether the token has the bytes of one in scope.
pub fn is_in_scope<C: Class>(text: &[u8], scope: &[Lexeme<C>], token: &Lexeme<C>) -> bool
    ensures { result ≡ is_in_scope text.now scope.now token.now }
{
    scope
        .iter()
        .any(|other| text_of(text, other) == text_of(text, token))
}

fn repeats<C: Class>(text: &[u8], classes: &[C], scope: &[Lexeme<C>], token: &Lexeme<C>) -> bool
    ensures { result ≡ repeats C.number class_of (text_of text.now) classes.now scope.now token.now }
{
    match scope {
        [] => true,
        [inner, ..] => !is_one_of(inner.class, classes)
            || is_same(text_of(text, inner), text_of(text, token)),
    }
}

fn is_same(bytes: &[u8], other: &[u8]) -> bool
    ensures { result ≡ bytes_eq bytes.now other.now }
{
    bytes == other
}

/// The next token, if it is of one of these classes and repeats the innermost name in scope, and the
/// tokens after it.
pub fn take_again<'a, C: Class>(
    text: &[u8],
    classes: &[C],
    scope: &[Lexeme<C>],
    rest: &'a [Lexeme<C>],
) -> Result<(&'a Lexeme<C>, &'a [Lexeme<C>]), GrammarStop<'a, C>>
    ensures { Gives (λ x. (x.0.now, x.1.now)) result
        (read_again C.number class_of (text_of text.now) classes.now scope.now rest.now) }
{
    match rest {
        [] => Err(GrammarStop::At(Refusal::Expected, rest)),
        [next, after @ ..] => {
            if is_one_of(next.class, classes) && repeats(text, classes, scope, next) {
                Ok((next, after))
            } else {
                Err(GrammarStop::At(Refusal::Expected, rest))
            }
        }
    }
}
