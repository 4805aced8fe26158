//! What a run does to those that it works with: a shelf, a source of entries, and posts.
#![tactic(auto)]

pub mod laws;
