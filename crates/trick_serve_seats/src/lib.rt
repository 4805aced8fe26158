//! Clients are seated one after another: a door is asked once, a client that comes has a place, queues and the threads of
//! its reader and its writer, or is turned away, and the caller is told of each. Whoever left is taken in.
#![tactic(auto)]

mod acceptor;
mod arrival;
mod asks;
mod departure;
mod fresh;
mod past;
mod places;
mod queues;
mod seat;

pub use acceptor::{Sessions, Teller, take_all_in};
pub use arrival::{Arrival, Comes};
pub use asks::{Acceptor, End, ask, look};
pub use departure::Departure;
pub use past::Past;
pub use places::Places;
pub use queues::Queues;
pub use seat::Seated;
