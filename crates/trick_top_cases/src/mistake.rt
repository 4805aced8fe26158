//! Why a line of the input is not done.

use std::alloc::AllocError;

/// What is wrong with a line.
#[derive(Clone, Copy, Debug, PartialEq, Eq)]
pub(crate) enum Mistake {
    /// It begins with no mark or word that is known.
    Mark,
    /// A backslash stands before no character that it may.
    Escape,
    /// What is to be a number is none.
    Number,
    /// No text has the name.
    Name,
    /// No text was begun to which the line could belong.
    Closed,
    /// There was no memory.
    Memory,
}

impl Mistake {
    /// What is printed of it.
    pub(crate) fn text(self) -> &'static str {
        match self {
            Mistake::Mark => "no line begins so",
            Mistake::Escape => "no backslash stands so",
            Mistake::Number => "this is no number",
            Mistake::Name => "no text has this name",
            Mistake::Closed => "no text and no file was begun",
            Mistake::Memory => "there was no memory",
        }
    }
}

impl From<AllocError> for Mistake {
    fn from(_error: AllocError) -> Mistake {
        Mistake::Memory
    }
}
