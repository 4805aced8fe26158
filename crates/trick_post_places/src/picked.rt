//! What a clerk's pick comes to.
ghost use Rattle.std.specs.Prelude.{◌≡◌};
ghost use Rattle.trick_post_places.specs.Answers.{was_got};

/// What a clerk's pick comes to.
#[derive(Clone, Copy, Debug, PartialEq, Eq)]
pub enum Picked {
    /// The clerk has what its thread was handed.
    Got,
    /// Nothing waits for it.
    Nothing,
    /// The post was shut, and nothing comes any more.
    Shut,
}

impl Picked {
    /// Whether the clerk has what its thread was handed.
    pub fn is_got(&self) -> bool
        ensures { result ≡ was_got self.now }
    {
        matches!(self, Picked::Got)
    }
}
