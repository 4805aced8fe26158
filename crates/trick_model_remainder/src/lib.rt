//! What a run that goes on from a state of another run writes, which is the remainder of that run's files; and that each
//! journal gives each state of a plan a run that is over some time. `docs/RULES.md` has the rules of checkpoints and of
//! runs that go on from one.
#![tactic(auto)]

pub mod laws;
