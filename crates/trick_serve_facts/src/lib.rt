//! What a run with clients came to: laws over what its source of entries, its acceptor and the ends of its sessions
//! say. `docs/PROMISES.md` has the promises in words.
#![tactic(auto)]

pub mod laws;
