//! What the sessions of a journal are sent: a source of entries that keeps it.

ghost use Rattle.std.specs.Prelude.{◌≡◌, ℕ, None, false};
ghost use Rattle.trick_phase_jobs.specs.Belongs.{IsMemoryOf};
ghost use Rattle.trick_exec_sources.specs.Replay.{sessions_of};
ghost use Rattle.trick_model.specs.PlanOf.{plan_of};
ghost use Rattle.trick_model.specs.State.{seen};
ghost use Rattle.trick_model.specs.ValidState.{IsStateOf};
ghost use Rattle.trick_exec_sources.specs.Turns.{no_sessions};

use std::alloc::{AllocError, Global};
use std::process::Abort;
use std::sync::Arc;
use trick_exec::{Ended, Start, run};
use trick_exec_alone::{first_state, one_thread};
use trick_exec_sources::{JournalTurns, Next, Turns};
use trick_exec_tic::Workers;
use trick_journal::read;
use trick_lang::Cells;
use trick_memory::Memory;
use trick_model::{Accepted, Journal, Mode, Session, State, laws};
use trick_outside::MemoryShelf;
use trick_phase_jobs::Phases;
use trick_post_work::Posts;
use trick_top_texts::ready;

/// A journal, and the messages to sessions, in order.
#[derive(Drop)]
struct Listener {
    alloc: Global,
    journal: JournalTurns,
    heard: Vec<(u32, Vec<u8>)>,
}

impl<M: Cells> Turns<M> for Listener {
    ghost use Rattle.std.specs.Prelude.{refl, Some, true};
    ghost use Rattle.trick_exec_sources.specs.Replay.{AreTold, told_join, told_of};

    ghost went = { λ old answers messages new. AreTold (told_of old.journal) answers (told_of new.journal) };

    ghost owes = { λ turns. turns.journal.owes };

    ghost journal = { λ turns. Some (told_of turns.journal) };

    ghost decided = { λ turns. true };

    ghost sessions = { λ turns. sessions_of turns.journal };

    ghost takes = { λ turns session. Unit {0} };

    fn gives_nothing(&mut self, state: &State<M>, live: &[Session]) -> bool {
        self.journal.gives_nothing(state, live)
    }

    fn entries(&mut self, alloc: Global, state: &State<M>, live: &[Session]) -> Next {
        self.journal.entries(alloc, state, live)
    }

    fn ends(&mut self, turn: u64) -> Option<(u64, u64)> {
        Turns::<M>::ends(&mut self.journal, turn)
    }

    fn decides(&self) -> bool {
        true
    }

    fn send(&mut self, session: u32, bytes: &[u8]) -> Result<(), AllocError> {
        let bytes = bytes.to_vec(self.alloc)?;
        self.heard.push((session, bytes))?;
        Ok(())
    }

    ghost reaches = { λ turns session there. tt };

    ghost went_none = { λ turns. refl };

    ghost went_join = { λ first second third early late some more one two. told_join _ _ _ early late one two };
}

// A listener that has heard nothing, before a run that starts at turn 0.
fn listen(rt: &(impl Abort + AllocGlobal), journal: Journal) -> Listener
    ensures unknown { sessions_of result.journal ≡ no_sessions }
    ensures paid { result.journal.owes ≡ false }
{
    let journal = JournalTurns::new(rt.alloc(), journal, 0, Mode::Run).expect(rt, "memory");
    Listener {
        alloc: rt.alloc(),
        journal,
        heard: Vec::new(rt.alloc()),
    }
}

// Whether a run from a state comes to its end.
fn comes_to_end<M: Cells + Drop, H: Phases<M>, P: Posts, T: Turns<M>>(
    alloc: Global,
    accepted: &Accepted,
    state: State<M>,
    workers: &mut Workers<H, P>,
    turns: &mut T,
) -> bool
    requires own { H.is_for workers.old.phases accepted.now.plan }
    requires posts { P.plan workers.old.posts ≡ accepted.now.plan }
    requires free { (n : ℕ) → P.in_flight workers.old.posts n ≡ None }
    requires valid { IsStateOf (plan_of accepted.now.plan) (seen M.numbers state) }
    requires memory { IsMemoryOf accepted.now.plan.program (M.numbers state.memory) (M.scalars state.memory) }
    requires unknown { T.sessions turns.old ≡ no_sessions }
    requires paid { T.owes turns.old ≡ false }
{
    let mut shelf = MemoryShelf::new(alloc);
    let ended = run(accepted, Start { alloc, state }, &mut shelf, workers, turns);
    let is_done = matches!(ended, Ok(Ended::Done(_)));
    drop(ended);
    is_done
}

// Whether a run from its start comes to its end.
fn starts_and_ends<H: Phases<Memory>, P: Posts, T: Turns<Memory>>(
    alloc: Global,
    accepted: &Accepted,
    workers: &mut Workers<H, P>,
    turns: &mut T,
) -> Result<bool, AllocError>
    requires own { H.is_for workers.old.phases accepted.now.plan }
    requires posts { P.plan workers.old.posts ≡ accepted.now.plan }
    requires free { (n : ℕ) → P.in_flight workers.old.posts n ≡ None }
    requires unknown { T.sessions turns.old ≡ no_sessions }
    requires paid { T.owes turns.old ≡ false }
{
    laws::plans_are_sound();
    laws::runs_start_valid();
    let state = first_state(alloc, accepted)?;
    Ok(comes_to_end(alloc, accepted, state, workers, turns))
}

// Whether a run on one thread comes to its end.
fn ends_on_one_thread<T: Turns<Memory>>(
    alloc: Global,
    accepted: &Arc<Accepted>,
    turns: &mut T,
) -> Result<bool, AllocError>
    requires unknown { T.sessions turns.old ≡ no_sessions }
    requires paid { T.owes turns.old ≡ false }
{
    let mut workers = one_thread::<Memory>(alloc, accepted)?;
    let is_at_end = starts_and_ends(alloc, accepted, &mut workers, turns);
    drop(workers);
    is_at_end
}

// What is sent under a journal.
fn heard_under(
    rt: &(impl Abort + AllocGlobal),
    accepted: &Arc<Accepted>,
    journal: Journal,
) -> Vec<(u32, Vec<u8>)> {
    let mut listener = listen(rt, journal);
    let is_at_end = ends_on_one_thread(rt.alloc(), accepted, &mut listener).expect(rt, "memory");
    assert!(rt; is_at_end, "the run comes to its end");
    let Listener { heard, .. } = listener;
    heard
}

// The journal of a text.
fn journal_of(rt: &(impl Abort + AllocGlobal), accepted: &Accepted, text: &str) -> Journal {
    read(rt.alloc(), accepted.plan(), 0, text.as_bytes())
        .ok()
        .expect(rt, "a journal")
}

// The plan of two texts.
fn accepted_of(rt: &(impl Abort + AllocGlobal), s_define: &str, input: &str) -> Accepted {
    ready(rt.alloc(), s_define.as_bytes(), input.as_bytes())
        .ok()
        .expect(rt, "an accepted plan")
}

/// What is sent under the journal of a text.
pub(crate) fn heard(
    rt: &(impl Abort + AllocGlobal),
    s_define: &str,
    input: &str,
    journal: &str,
) -> Vec<(u32, Vec<u8>)> {
    let accepted = accepted_of(rt, s_define, input);
    let accepted = Arc::new(rt.alloc(), accepted).expect(rt, "memory");
    heard_under(rt, &accepted, journal_of(rt, &accepted, journal))
}
