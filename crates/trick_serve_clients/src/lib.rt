//! The clients of a run from first to last: they are opened before the run, come and go while it goes on, and at its
//! end each session is ended, and the door has all links again.
#![tactic(auto)]

mod closing;
mod ending;
mod late;
mod opening;

pub use closing::{Closed, close_clients, close_here};
pub use opening::{Clients, ClientsHere, Opened, open_clients};
