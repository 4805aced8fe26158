//! What a line does.

ghost use Rattle.std.specs.Prelude.{◌≡◌, IfOk, IfSome, None, OnErr};
ghost use Rattle.trick_model.specs.Events.{names_of};
ghost use Rattle.trick_model.specs.Names.{deed_of, find_name};
ghost use Rattle.trick_model.specs.PlanOf.{plan_of};
ghost use Rattle.trick_model.specs.Session.{acted, added, answered, existence, replied};
ghost use Rattle.trick_model.specs.Valid.{IsDeedAmong};
ghost use Rattle.trick_session.specs.Answers.{answer_in};
ghost use Rattle.trick_model.specs.declared.session.Session.{Session};

use crate::Reply;
use crate::session::remove;
use std::alloc::{AllocError, Global};
use trick_base::Word;
use trick_model::{Action, Command, Plan, Session};
use trick_plan_deeds::{deed_in_plan, find_cell};

// The most variables of a session.
const VARIABLE_LIMIT: usize = 256;

// What an action asks for is to be done; where it cannot be, it is a bad command.
fn act(alloc: Global, plan: &Plan, action: &Action) -> Result<Reply, AllocError>
    ensures answer { IfOk result (λ reply. (session : Session) → answer_in session reply
        ≡ acted (deed_of (names_of (plan_of plan.now)) action.now) session) }
    ensures there { IfOk result (λ reply. IfSome reply.act (IsDeedAmong (names_of (plan_of plan.now)))) }
{
    match deed_in_plan(plan, action) {
        Some(deed) => Ok(Reply::act(alloc, deed)),
        None => Reply::bad(alloc),
    }
}

// A variable is added to the list, or is a bad command where the list is full.
fn add(alloc: Global, plan: &Plan, session: &mut Session, name: Word) -> Result<Reply, AllocError>
    ensures answer { IfOk result (λ reply. answer_in session.new reply
        ≡ added (plan_of plan.now) name session.old) }
    ensures memory { OnErr result (session.new ≡ session.old) }
{
    if session.variables.len() >= VARIABLE_LIMIT {
        return Reply::bad(alloc);
    }
    let cell = find_cell(&plan.program, name.as_slice());
    session.variables.push((name, cell))?;
    Ok(Reply::quiet(alloc))
}

// Whether there is a cell of this name.
fn exists(alloc: Global, plan: &Plan, name: Word) -> Result<Reply, AllocError>
    ensures answer { IfOk result (λ reply. (session : Session) → answer_in session reply
        ≡ replied (existence (find_name name (plan_of plan.now).names)) session) }
    ensures act { IfOk result (λ reply. reply.act ≡ None) }
{
    match find_cell(&plan.program, name.as_slice()) {
        Some(_) => Reply::message(alloc, b"1\t1\n"),
        None => Reply::message(alloc, b"1\t0\n"),
    }
}

/// Does what a client's line says to its session, and gives the reply: the message to the client, a deed
/// that is to be done, and whether Freeze is to be left. The page RULES of the documents has the rules.
/// A bad command changes nothing, and a want of memory leaves the session as it was. Names of cells,
/// jobs, groups and events are looked for one by one.
pub fn apply(
    alloc: Global,
    plan: &Plan,
    session: &mut Session,
    command: Command,
) -> Result<Reply, AllocError>
    ensures answer { IfOk result (λ reply. answer_in session.new reply
        ≡ answered (plan_of plan.now) command session.old) }
    ensures there { IfOk result (λ reply. IfSome reply.act (IsDeedAmong (names_of (plan_of plan.now)))) }
    ensures memory { OnErr result (session.new ≡ session.old) }
{
    match command {
        Command::Act(action) => return act(alloc, plan, &action),
        Command::Add { name } => return add(alloc, plan, session, name),
        Command::Exists { name } => return exists(alloc, plan, name),
        Command::Resume => return Ok(Reply::resume(alloc)),
        Command::Bad => return Reply::bad(alloc),
        Command::Remove { name } => remove(alloc, &mut session.variables, &name),
        Command::Clear => session.variables.clear(),
        Command::Cycle { tics } => session.cycle = tics,
        Command::Pause { on } => session.paused = on,
        Command::Send => session.send = true,
        Command::Copy { mode } => session.copy = mode,
        Command::Nothing | Command::Exit => {}
    }
    Ok(Reply::quiet(alloc))
}
