use trick_exec_tic::Current;
use trick_model::Session;

/// A state in a turn whose entries are heard, with the sessions that are there, by rising number.
#[derive(Drop)]
pub struct Hearing<M> {
    pub current: Current<M>,
    pub sessions: Vec<Session>,
}

/// A message to a session: the number of the session, and the bytes, with their line feed.
#[derive(Debug, Drop)]
pub struct Message {
    /// From 1 to 4294967295.
    pub session: u32,
    pub bytes: Vec<u8>,
}
