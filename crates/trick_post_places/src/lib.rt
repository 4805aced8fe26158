//! What lies behind the turn of a post: a place for each thread, with the parcel that was handed over and how far the
//! thread's work is, and what one turn does there.
#![tactic(auto)]

mod event;
mod picked;
mod places;
mod stage;

pub use event::Event;
pub use picked::Picked;
pub use places::{Place, Places};
pub use stage::Stage;
