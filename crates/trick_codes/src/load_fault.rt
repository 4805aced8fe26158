/// Why a text is not loaded. Lines are counted from 1 and places in bytes from 0.
#[derive(Clone, Copy, Debug, PartialEq, Eq)]
pub enum LoadFault {
    /// Memory ran out.
    OutOfMemory,
    /// At this line the text stops being a prefix of a right one, and it is not a right line there.
    BadLine { line: usize },
    /// The same, where the line has another name than the one that is due.
    WrongPlan { line: usize },
    /// The same, where the numbers are written rightly and one is out of its range.
    OutOfRange { line: usize },
    /// The text ends at this place, and it is a proper prefix of a right one.
    Truncated { at: usize },
    /// A right text ends at this place, and more follows.
    Trailing { at: usize },
}
