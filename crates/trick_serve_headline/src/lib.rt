//! The headline for runs with clients: laws over what such a run writes and says. `docs/PROMISES.md` has it in words.
#![tactic(auto)]

pub mod laws;
