//! What a turn does for its clients: it hears their joins, lines and leaves, one after another, and
//! gives the replies, and at its end the samples. `docs/RULES.md` has the rules of sessions.
#![tactic(auto)]

mod between;
mod ending;
mod entries;
mod hearing;
mod lines;
mod places;

pub use ending::{samples, stay};
pub use entries::hear;
pub use hearing::{Hearing, Message};
