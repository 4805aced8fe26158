//! What holds of each run that `trick_exec::run` does.
#![tactic(auto)]

pub mod laws;
