//! Work beside the tics, over whoever does it: what must-finish threads publish and take where their
//! cycles end, which rounds of asynchronous threads are published, and which start; and what a state holds
//! when a run begins with it. `docs/RULES.md` has the rules.
#![tactic(auto)]

mod ended;
mod entries;
mod frames;
mod held;
mod records;
mod rounds;
mod seat;
mod station;

pub use ended::must_finish;
pub use entries::publications;
pub use held::start_held;
pub use rounds::{publish_all, start_rounds};
pub use station::{Station, stations};
