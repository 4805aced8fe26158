//! What a body means, straight on the tree of its text and by names alone, with worked bodies.
#![tactic(auto)]

pub mod laws;
