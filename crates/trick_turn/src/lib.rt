//! A value behind a turn: one pass at a time has the value, and all that was ever done behind the lock is one list, its
//! history. The bell by which threads sleep until there is something to do stands by itself too.
#![tactic(auto)]

mod claim;
mod keeps;
mod lock;
mod pass;
mod rule;
mod sleep;
mod turn;
mod view;

pub use claim::Claim;
pub use keeps::{Adds, Keeps, Nothing, Progress, Quiet, Stirs, Wakes};
pub use lock::TurnLock;
pub use pass::Pass;
pub use sleep::Bell;
pub use turn::Turn;
pub use view::View;
