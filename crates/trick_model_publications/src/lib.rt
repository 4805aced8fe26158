//! Runs under journals that differ in publications alone: their logs, and their memories outside the
//! asynchronous reach. `docs/RULES.md` has the rules of asynchronous threads and of acceptance.
#![tactic(auto)]

pub mod laws;
