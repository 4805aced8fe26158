//! The door of a run whose acceptor was refused a thread: its caller asks it himself.

use trick_outside::Door;
use trick_serve_seats::{Acceptor, End, Past, Queues};

/// The door of a run as its caller asks it himself: where the acceptor was refused a thread. No thread is started for
/// the clients, each of which leaves at once.
#[derive(Drop)]
pub struct Asking<D: Door + Drop, S: Drop, R: Drop>
where
    D::In: Drop,
    D::Out: Drop,
{
    pub(crate) door: D,
    pub(crate) acceptor: Acceptor<D::In, D::Out, S, R, Past<D::In, D::Out>>,
    // The queues of the next client, once they were made.
    pub(crate) ready: Option<Queues>,
    // Why the door is asked no more.
    pub(crate) end: Option<End>,
}
