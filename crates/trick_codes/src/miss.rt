/// Why no value of a code stands at the front of a text. The text may be wrong, or not yet whole.
#[derive(Clone, Copy, Debug, PartialEq, Eq)]
pub enum Miss {
    /// The text ends within a value's text: it is a prefix of one.
    Ends,
    /// No value's text goes on with these bytes.
    Differs,
}
