//! The end of a turn.

ghost use Rattle.std.specs.Prelude.{◌≡◌, ◌++◌, All, IfOk, OnOk, length, not};
ghost use Rattle.trick_exec_entries.specs.Hearing.{said_of};
ghost use Rattle.trick_exec_entries.specs.Samples.{awake, samples_of_one};
ghost use Rattle.trick_model.specs.Session.{samples as samples_of, staying};
ghost use Rattle.trick_model.specs.State.{seen};
ghost use Rattle.trick_session.specs.Kept.{IsSession};

use crate::Message;
use std::alloc::{AllocError, Global};
use trick_lang::Cells;
use trick_model::{Session, State};
use trick_session::sample;

// Adds the sample of a session, if one is due.
fn add_sample<M: Cells>(
    alloc: Global,
    said: &mut Vec<Message>,
    session: &Session,
    state: &State<M>,
    from: u64,
) -> Result<(), AllocError>
    requires { IsSession (length (M.numbers state.now.memory)) session.now }
    ensures { OnOk result (said_of said.new.items
        ≡ said_of said.old.items ++ samples_of_one from (seen M.numbers state.now) session.now) }
{
    if let Some(bytes) = sample(alloc, session, state, from)? {
        said.push(Message {
            session: session.number,
            bytes,
        })?;
    }
    Ok(())
}

/// The samples of a turn, at whose start the tic was `from`, in the order of the sessions: one for each
/// session to which one is due. It looks no name up. The only refusal is for want of memory.
pub fn samples<M: Cells>(
    alloc: Global,
    sessions: &[Session],
    state: &State<M>,
    from: u64,
) -> Result<Vec<Message>, AllocError>
    requires { All (IsSession (length (M.numbers state.now.memory))) sessions.now }
    ensures { IfOk result (λ said. said_of said.items
        ≡ samples_of from (seen M.numbers state.now) sessions.now) }
{
    let mut said = Vec::new(alloc);
    for session in sessions {
        add_sample(alloc, &mut said, session, state, from)?;
    }
    Ok(said)
}

/// Removes the sessions that are leaving, at the end of a turn whose samples were made. That the others
/// asked for a sample is forgotten. Takes no memory.
pub fn stay(sessions: &mut Vec<Session>)
    ensures { sessions.new.items ≡ staying sessions.old.items }
{
    let keep = |session: &mut Session| -> bool
        ensures { (result ≡ not session.entry.now.leaving) × (session.exit.now ≡ awake session.entry.now) }
    {
        session.send = false;
        !session.leaving
    };
    sessions.retain_mut(keep);
}
