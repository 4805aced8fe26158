use trick_base::Word;

/// A method of a class, for every object of the class.
#[derive(Drop)]
pub struct Method {
    pub name: Word,
    /// Its class, by number.
    pub class: u32,
    /// The block of its body, by number.
    pub block: u32,
}
