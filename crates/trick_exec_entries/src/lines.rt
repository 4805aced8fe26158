//! A client's line, and its reply.

ghost use Rattle.std.specs.Prelude.{◌≡◌, ◌≤◌, IfOk, IfSome, IsTrue, length, map};
ghost use Rattle.trick_exec_entries.specs.Hearing.{messages_in};
ghost use Rattle.trick_exec_entries.specs.Sessions.{numbers_of};
ghost use Rattle.trick_model.specs.Events.{names_of};
ghost use Rattle.trick_model.specs.PlanOf.{plan_of};
ghost use Rattle.trick_model.specs.Session.{answered};
ghost use Rattle.trick_model.specs.Turn.{changed, session_of};
ghost use Rattle.trick_model.specs.Valid.{IsDeedAmong, rises};
ghost use Rattle.trick_model.specs.declared.session.Session.{Session as SessionValue};
ghost use Rattle.trick_session.specs.Answers.{answer_in, messages};

use crate::Message;
use crate::places::place;
use std::alloc::{AllocError, Global};
use trick_base::Line;
use trick_command::command;
use trick_model::{Plan, Session};
use trick_session::{Reply, apply, join};

/// Does what a line says to its session, and gives the reply.
pub(crate) fn answer(
    alloc: Global,
    plan: &Plan,
    sessions: &mut [Session],
    number: u32,
    line: &Line,
) -> Result<Reply, AllocError>
    requires rising { IsTrue (rises (numbers_of sessions.old)) }
    requires line { length line.now ≤ 4096 }
    ensures answer { IfOk result (λ reply. (session : SessionValue)
        × (answer_in session reply
        ≡ answered (plan_of plan.now) ((plan_of plan.now).command line.now) (session_of number sessions.old))
        × (sessions.new ≡ changed (λ old. session) number sessions.old)) }
    ensures there { IfOk result (λ reply. IfSome reply.act (IsDeedAmong (names_of (plan_of plan.now)))) }
{
    let command = command(alloc, line)?;
    match place(sessions, number) {
        Some(place) => apply(alloc, plan, &mut sessions[place], command),
        None => apply(alloc, plan, &mut join(alloc, number), command),
    }
}

/// The message of a reply, if it has a byte.
pub(crate) fn message(session: u32, bytes: Vec<u8>) -> Option<Message>
    ensures { messages_in result ≡ map (λ bytes. (session, bytes)) (messages bytes.items) }
{
    if bytes.is_empty() {
        None
    } else {
        Some(Message { session, bytes })
    }
}
