//! The entries of a turn.

ghost use Rattle.std.specs.Prelude.{◌≡◌, ◌++◌, [], All, IfOk, IsTrue, OnOk};
ghost use Rattle.trick_eval.specs.Bench.{IsFor};
ghost use Rattle.trick_exec_entries.specs.Hearing.{hearing_of, messages_in, said_of};
ghost use Rattle.trick_exec_entries.specs.Sessions.{AreHeard, numbers_of};
ghost use Rattle.trick_phase_jobs.specs.Belongs.{IsMemoryOf};
ghost use Rattle.trick_model.specs.Journal.{is_entry};
ghost use Rattle.trick_model.specs.PlanOf.{plan_of};
ghost use Rattle.trick_model.specs.Turn.{hear as hear_of, heard, replies as replies_of, reply as reply_of};
ghost use Rattle.trick_model.specs.Valid.{rises};
ghost use Rattle.trick_model.specs.declared.entry.Entry.{Entry as EntryValue};

use crate::between::follow;
use crate::lines::{answer, message};
use crate::places::leave;
use crate::{Hearing, Message};
use std::alloc::{AllocError, Global};
use trick_eval::Bench;
use trick_lang::Cells;
use trick_model::{Entry, Plan};
use trick_session::join;

// Hears one entry, and gives the reply to it, if there is one.
fn hear_entry<M: Cells>(
    alloc: Global,
    plan: &Plan,
    entry: &Entry,
    hearing: &mut Hearing<M>,
    bench: &mut Bench,
) -> Result<Option<Message>, AllocError>
    requires bench { IsFor plan.now.program bench.old.parts }
    requires memory { IsMemoryOf plan.now.program (M.numbers hearing.old.current.state.memory)
        (M.scalars hearing.old.current.state.memory) }
    requires entry { IsTrue (is_entry entry.now) }
    requires rising { IsTrue (rises (numbers_of hearing.old.sessions.items)) }
    ensures heard { IfOk result (λ reply. hearing_of M.numbers hearing.new
        ≡ hear_of (plan_of plan.now) entry.now (hearing_of M.numbers hearing.old)) }
    ensures reply { IfOk result (λ reply. messages_in reply
        ≡ reply_of (plan_of plan.now) entry.now (hearing_of M.numbers hearing.old)) }
    ensures memory { IsMemoryOf plan.now.program (M.numbers hearing.new.current.state.memory)
        (M.scalars hearing.new.current.state.memory) }
    ensures bench { bench.new.parts ≡ bench.old.parts }
{
    match entry {
        Entry::Join { session } => hearing.sessions.push(join(alloc, *session))?,
        Entry::Said { session, line } => {
            let reply = answer(alloc, plan, &mut hearing.sessions, *session, line)?;
            follow(plan, &reply, &mut hearing.current, bench);
            return Ok(message(*session, reply.bytes));
        }
        Entry::Leave { session, .. } => leave(&mut hearing.sessions, *session),
        Entry::Publish { .. } => {}
    }
    Ok(None)
}

// Adds a reply to those before it, if there is one.
fn add_reply(replies: &mut Vec<Message>, reply: Option<Message>) -> Result<(), AllocError>
    ensures { OnOk result (said_of replies.new.items ≡ said_of replies.old.items ++ messages_in reply) }
{
    if let Some(message) = reply {
        replies.push(message)?;
    }
    Ok(())
}

/// Hears the entries of a turn, one after another, and gives the replies in their order. A join makes a
/// session, a line is applied as a command, and a leave marks its session; a publication is not for
/// sessions. A line costs the logarithm of the number of sessions, and what `trick_session::apply` does.
/// The only refusal is for want of memory, somewhere among the entries.
pub fn hear<M: Cells>(
    alloc: Global,
    plan: &Plan,
    entries: &[Entry],
    hearing: &mut Hearing<M>,
    bench: &mut Bench,
) -> Result<Vec<Message>, AllocError>
    requires bench { IsFor plan.now.program bench.old.parts }
    requires memory { IsMemoryOf plan.now.program (M.numbers hearing.old.current.state.memory)
        (M.scalars hearing.old.current.state.memory) }
    requires entries { All (λ (entry : EntryValue). IsTrue (is_entry entry)) entries.now }
    requires sessions { AreHeard (plan_of plan.now) hearing.old.sessions.items entries.now }
    ensures heard { IfOk result (λ replies. hearing_of M.numbers hearing.new
        ≡ heard (plan_of plan.now) entries.now (hearing_of M.numbers hearing.old)) }
    ensures replies { IfOk result (λ replies. said_of replies.items
        ≡ replies_of (plan_of plan.now) entries.now (hearing_of M.numbers hearing.old)) }
    ensures sessions { IfOk result (λ replies. AreHeard (plan_of plan.now) hearing.new.sessions.items []) }
    ensures memory { IsMemoryOf plan.now.program (M.numbers hearing.new.current.state.memory)
        (M.scalars hearing.new.current.state.memory) }
    ensures bench { bench.new.parts ≡ bench.old.parts }
{
    let mut replies = Vec::new(alloc);
    for entry in entries {
        let reply = hear_entry(alloc, plan, entry, hearing, bench)?;
        add_reply(&mut replies, reply)?;
    }
    Ok(replies)
}
