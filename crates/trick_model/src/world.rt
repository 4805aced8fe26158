use crate::{Session, State};

/// A state with its live sessions, by rising number.
#[derive(Drop)]
pub struct World<M> {
    pub state: State<M>,
    pub sessions: Vec<Session>,
}
