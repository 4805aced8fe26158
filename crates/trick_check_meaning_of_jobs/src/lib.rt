//! That what jobs do is what their text says: the effect of each job is the meaning of its method in its object, by
//! names alone.
#![tactic(auto)]

pub mod laws;
