//! Generated simulations: texts that need no file of the user, and whose run ends with sums that are
//! known in advance. `docs/FORMATS.md` has both texts.
#![tactic(auto)]

mod class;
mod generated;
pub mod laws;
mod object;
mod thread;

pub use generated::{Generated, make};
