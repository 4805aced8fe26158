/// What is wrong with a line in the place of the one that is due.
#[derive(Clone, Copy, Debug, PartialEq, Eq)]
pub enum Kind {
    /// It has not the form of the line, or its value is written wrongly.
    BadLine,
    /// It has the form of a line, and another name or job than the one that is due.
    WrongPlan,
    /// Its numbers are written rightly, and one is out of its range.
    OutOfRange,
}
