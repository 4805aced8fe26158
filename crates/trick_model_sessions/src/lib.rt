//! What the lines of clients do to a run, and who is sent messages: laws of turns, for every plan, state and journal.
//! `docs/RULES.md` has the rules of sessions.
#![tactic(auto)]

pub mod laws;
