ghost use Rattle.std.specs.Prelude.{◌≡◌, ◌≤◌, length};

/// The kind of a text, which decides its comments and its quotes.
#[derive(Clone, Copy, Debug, PartialEq, Eq)]
pub enum Style {
    /// A simulation definition: comments are `//` up to the line's end and `/*` up to `*/`, and
    /// strings stand in double quotes.
    SDefine,
    /// An input file: a comment is `#` up to the line's end, and strings stand in double or in
    /// single quotes.
    Input,
    /// A client's command or an action: it has no comments, and strings stand in double or in
    /// single quotes.
    Command,
}

/// The kind of a token.
#[derive(Clone, Copy, Debug, PartialEq, Eq)]
pub enum TokenKind {
    /// A letter or `_`, and letters, digits and `_`: at most 64 bytes.
    Name,
    /// Decimal digits, or `0x` and hexadecimal digits: at most two to the power of 63.
    Whole,
    /// Digits, a point and digits, with a digit on one side at least: at most 40 bytes.
    Decimal,
    /// A string with its quotes.
    Text,
    /// One, two or three bytes that are none of the others, as `;` or `<<=`.
    Mark,
}

/// A token of a text. It holds no bytes, only where they stand.
#[derive(Clone, Copy, Debug, PartialEq, Eq)]
pub struct Token {
    pub kind: TokenKind,
    /// The place of its first byte, from 0.
    pub start: usize,
    /// The place after its last byte.
    pub end: usize,
    /// The line of its first byte, from 1.
    pub line: u32,
}

impl Token {
    ghost use Rattle.trick_text.specs.Tokens.{inner, spelling};

    /// The bytes of this token, where this is the text that it was cut from.
    pub fn spelling<'a>(&self, text: &'a [u8]) -> &'a [u8]
        requires forward { self.now.start ≤ self.now.end }
        requires inside { self.now.end ≤ length text.now }
        ensures { result.now ≡ spelling text.now self.now }
    {
        &text[self.start..self.end]
    }

    /// The bytes between the quotes of this token, which is a string, where this is the text that it
    /// was cut from.
    pub fn quoted<'a>(&self, text: &'a [u8]) -> &'a [u8]
        requires forward { self.now.start ≤ self.now.end }
        requires inside { self.now.end ≤ length text.now }
        ensures { result.now ≡ inner (spelling text.now self.now) }
    {
        match self.spelling(text) {
            [_, inner @ .., _] => inner,
            _ => &[],
        }
    }
}
