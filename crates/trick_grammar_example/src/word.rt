ghost use Rattle.std.specs.Prelude.{◌≡◌};
ghost use Rattle.std.specs.Str.{bytes_eq};
ghost use Rattle.trick_grammar_example.specs.Words.{number_or_name, mark_or_other, class_of_bytes};

use trick_grammar::{Class, Lexeme};

/// A class of tokens.
#[derive(Clone, Copy, Debug, PartialEq, Eq)]
pub enum Word {
    If,
    Else,
    Enum,
    For,
    Name,
    Whole,
    OpenBrace,
    CloseBrace,
    OpenParen,
    CloseParen,
    Semicolon,
    Comma,
    Assign,
    Increment,
    Less,
    Plus,
    Minus,
    Times,
}

/// A token with its class.
pub type Token = Lexeme<Word>;

impl Class for Word {
    ghost use Rattle.trick_grammar_example.specs.Words.{number_of, class_of_bytes, spelling_of, each_is_spelled};

    ghost number = { number_of };

    ghost of_bytes = { class_of_bytes };

    ghost spelling = { spelling_of };

    ghost is_spelled = { each_is_spelled };

    fn is(self, other: Self) -> bool {
        self == other
    }
}

impl Word {
    /// The class of a token with these bytes.
    pub fn of_bytes(bytes: &[u8]) -> Word
        ensures { result ≡ class_of_bytes bytes.now }
    {
        if is(bytes, b"if") {
            Word::If
        } else if is(bytes, b"else") {
            Word::Else
        } else if is(bytes, b"enum") {
            Word::Enum
        } else if is(bytes, b"for") {
            Word::For
        } else {
            mark_or_other(bytes)
        }
    }
}

fn is(bytes: &[u8], spelling: &[u8]) -> bool
    ensures { result ≡ bytes_eq bytes.now spelling.now }
{
    bytes == spelling
}

fn mark_or_other(bytes: &[u8]) -> Word
    ensures { result ≡ mark_or_other bytes.now }
{
    if is(bytes, b"{") {
        Word::OpenBrace
    } else if is(bytes, b"}") {
        Word::CloseBrace
    } else if is(bytes, b"(") {
        Word::OpenParen
    } else if is(bytes, b")") {
        Word::CloseParen
    } else if is(bytes, b";") {
        Word::Semicolon
    } else if is(bytes, b",") {
        Word::Comma
    } else if is(bytes, b"=") {
        Word::Assign
    } else if is(bytes, b"++") {
        Word::Increment
    } else if is(bytes, b"<") {
        Word::Less
    } else if is(bytes, b"+") {
        Word::Plus
    } else if is(bytes, b"-") {
        Word::Minus
    } else if is(bytes, b"*") {
        Word::Times
    } else {
        number_or_name(bytes)
    }
}

fn number_or_name(bytes: &[u8]) -> Word
    ensures { result ≡ number_or_name bytes.now }
{
    match bytes {
        [] => Word::Name,
        [first, ..] => if first.is_ascii_digit() {
            Word::Whole
        } else {
            Word::Name
        },
    }
}
