//! How the clients of a served run come and go: the acceptor, which takes clients from a door and starts the reader and
//! the writer of each, in a thread of its own that is started and waited for here; the door as its caller asks it
//! himself, where the acceptor was refused a thread; and the end of a session, at which both are taken in.
#![tactic(auto)]

mod asking;
mod caller;
mod ending;
mod running;
mod starting;
mod taking;
mod waiting;

pub use asking::Asking;
pub use ending::{Ends, SessionEnd, end_session};
pub use running::{AcceptorThread, Accepts, Outcome, RunningAcceptor};
pub use starting::start_accepting;
pub use taking::{Accepting, Taken, accept};
pub use trick_serve_seats::{Arrival, Comes, Departure, End, Past};
pub use waiting::finish_accepting;
