//! What a claim that waits for nobody answers.
use crate::keeps::Keeps;
use crate::turn::Turn;

/// What `Pass::try_claim` found.
pub enum Claim<'a, B: Keeps> {
    /// The turn was free, and is this pass's now.
    Got(Turn<'a, B>),
    /// The turn was held, by the pass with the number `found`, which is not 0.
    Busy { found: u64 },
}
