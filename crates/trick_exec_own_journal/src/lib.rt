//! What a run writes as its journal is a journal: read back, it is that of the same run.
#![tactic(auto)]

pub mod laws;
