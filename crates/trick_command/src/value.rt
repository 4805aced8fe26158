use trick_base::Word;

/// What a piece of a form stands for.
#[derive(Debug, Drop)]
pub enum Value {
    Bytes(Word),
    /// A whole number, or the same below 0.
    Number { negative: bool, size: u64 },
}
