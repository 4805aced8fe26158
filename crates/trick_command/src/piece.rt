//! What forms are made of.

/// A piece of a form: one word or more.
#[derive(Clone, Copy, Debug)]
pub enum Piece {
    /// This word, and no other.
    Is(&'static [u8]),
    /// A string.
    Quoted,
    /// A whole number.
    Whole,
    /// A number of seconds that is a time.
    Time,
    /// A whole number with or without `-`, `True` or `False`.
    Literal,
    /// A full name: a name, and members and indexes.
    Path,
}

// The call of a word of `trick`, with pieces between its parentheses.
macro_rules! call {
    ($name:literal $(, $piece:expr)*) => {
        &[
            Piece::Is(b"trick"),
            Piece::Is(b"."),
            Piece::Is($name),
            Piece::Is(b"("),
            $($piece,)*
            Piece::Is(b")"),
        ]
    };
}

pub(crate) use call;
