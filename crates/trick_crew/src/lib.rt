//! Who does all the work of a run in threads: the team of its tics, and the clerks of must-finish and asynchronous
//! threads where its plan has such threads. All memory is taken before the first start, and one call ends all threads.
#![tactic(auto)]

mod clerks;
mod listing;
mod nobody;
mod whole;

pub use clerks::Clerks;
pub use nobody::Nobody;
pub use trick_crew_clerks::Yard;
pub use trick_crew_team::Team;
pub use whole::{CrewEnd, WholeCrew};
