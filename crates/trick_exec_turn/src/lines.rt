//! The lines of a turn: its joins, lines and leaves, which stand before its publications.

ghost use Rattle.std.specs.Prelude.{◌≡◌, ◌+◌, ◌≤◌, All, IfOk, IsTrue, [], drop, length, not, take};
ghost use Rattle.trick_eval.specs.Bench.{IsFor};
ghost use Rattle.trick_exec_entries.specs.Hearing.{hearing_of, said_of};
ghost use Rattle.trick_exec_entries.specs.Sessions.{AreHeard};
ghost use Rattle.trick_phase_jobs.specs.Belongs.{IsMemoryOf};
ghost use Rattle.trick_model.specs.Files.{note};
ghost use Rattle.trick_model.specs.Journal.{is_entry, is_of_session as is_of_session_of};
ghost use Rattle.trick_model.specs.PlanOf.{plan_of};
ghost use Rattle.trick_model.specs.State.{seen};
ghost use Rattle.trick_base.specs.Time.{tic_limit};
ghost use Rattle.trick_model.specs.Turn.{heard, replies as replies_of};
ghost use Rattle.trick_model.specs.ValidState.{IsStateOf};
ghost use Rattle.trick_model.specs.declared.entry.Entry.{Entry as EntryValue};
ghost use Rattle.trick_outside.specs.Does.{Does};
ghost use Rattle.trick_exec_meaning.specs.Parts.{AreApart};
ghost use Rattle.trick_exec_tic.specs.Course.{IsCourseOf, IsMadeFor};
ghost use Rattle.trick_exec_tic.specs.Steps.{steps_of};
ghost use Rattle.trick_exec_sources.specs.Turns.{Sessions as SessionsOf, may_all_come};

use std::sync::ledger::Ledger;
use trick_exec_entries::{Hearing, Message, hear};
use trick_exec_files::note;
use trick_exec_frame::Equipment;
use trick_exec_tic::Course;
use trick_lang::Cells;
use trick_model::{Accepted, Entry, Plan, State, laws};
use trick_outside::{Shelf, Stop};

// Whether an entry is a join, a line or a leave.
fn is_of_session(entry: &Entry) -> bool
    ensures { result ≡ is_of_session_of entry.now }
{
    match entry {
        Entry::Join { .. } | Entry::Said { .. } | Entry::Leave { .. } => true,
        Entry::Publish { .. } => false,
    }
}

/// How many of a turn's entries are lines: those before its first publication.
pub(crate) fn count_lines(entries: &[Entry]) -> usize
    ensures within { result ≤ length entries.now }
    ensures apart { (s : SessionsOf) → IsTrue (may_all_come entries.now s)
        → AreApart entries.now (take result entries.now) (drop result entries.now) }
{
    let mut count = 0;
    for entry in entries {
        if !is_of_session(entry) {
            return count;
        }
        count += 1;
    }
    count
}

// Looks at a course again, where a turn had lines, which may have changed flags.
fn look_again<M: Cells, L: Ledger>(
    plan: &Plan,
    lines: &[Entry],
    state: &State<M>,
    course: &mut Course<L>,
)
    requires made { IsMadeFor plan.now course.old state.now.tic }
    requires tic { state.now.tic ≤ tic_limit + 1 }
    requires same { lines.now ≡ [] → IsCourseOf plan.now course.old (seen M.numbers state.now) }
    ensures { IsCourseOf plan.now course.new (seen M.numbers state.now) }
{
    if !lines.is_empty() {
        course.look(plan, state);
    }
}

/// Hears the lines of a turn: they are noted and then heard, and the replies are given. Where there are some, they
/// may have changed flags, so that the course is looked at again. It stops where the shelf failed, or where there
/// was no memory; the state is of no use then.
pub(crate) fn hear_lines<M: Cells, F: Shelf, L: Ledger>(
    accepted: &Accepted,
    lines: &[Entry],
    hearing: &mut Hearing<M>,
    equipment: &mut Equipment<L>,
    shelf: &mut F,
) -> Result<Vec<Message>, Stop>
    requires valid { IsStateOf (plan_of accepted.now.plan) (seen M.numbers hearing.old.current.state) }
    requires memory { IsMemoryOf accepted.now.plan.program (M.numbers hearing.old.current.state.memory)
        (M.scalars hearing.old.current.state.memory) }
    requires course { IsCourseOf accepted.now.plan equipment.old.course (seen M.numbers hearing.old.current.state) }
    requires bench { IsFor accepted.now.plan.program equipment.old.bench.parts }
    requires entries { All (λ (entry : EntryValue). IsTrue (is_entry entry)) lines.now }
    requires sessions { AreHeard (plan_of accepted.now.plan) hearing.old.sessions.items lines.now }
    ensures does { Does F.Shelf shelf.old shelf.new result
        (steps_of (note hearing.old.current.state.turn lines.now)) }
    ensures heard { IfOk result (λ replies. hearing_of M.numbers hearing.new
        ≡ heard (plan_of accepted.now.plan) lines.now (hearing_of M.numbers hearing.old)) }
    ensures replies { IfOk result (λ replies. said_of replies.items
        ≡ replies_of (plan_of accepted.now.plan) lines.now (hearing_of M.numbers hearing.old)) }
    ensures sessions { IfOk result (λ replies. AreHeard (plan_of accepted.now.plan) hearing.new.sessions.items []) }
    ensures memory { IfOk result (λ replies. IsMemoryOf accepted.now.plan.program
        (M.numbers hearing.new.current.state.memory) (M.scalars hearing.new.current.state.memory)) }
    ensures course { IfOk result (λ replies. IsCourseOf accepted.now.plan equipment.new.course
        (seen M.numbers hearing.new.current.state)) }
    ensures bench { IsFor accepted.now.plan.program equipment.new.bench.parts }
{
    laws::plans_are_sound();
    let plan = accepted.plan();
    let alloc = equipment.course.alloc;
    note(alloc, hearing.current.state.turn, lines, shelf)?;
    let Ok(replies) = hear(alloc, plan, lines, hearing, &mut equipment.bench) else {
        return Err(Stop::Memory);
    };
    look_again(plan, lines, &hearing.current.state, &mut equipment.course);
    Ok(replies)
}
