//! The choice of the publications of a run frame.

ghost use Rattle.std.specs.Prelude.{◌≡◌, ◌<◌, ◌≤◌, List, IfOk, IsSome, OnOk, length, slice_index_or, true};
ghost use Rattle.trick_exec_posts.specs.Flight.{GoesWith};
ghost use Rattle.trick_exec_posts.specs.Stations.{AreStations, IsSeat};
ghost use Rattle.trick_exec_frame.specs.Adds.{Adds, AreAsIs, polls_for};
ghost use Rattle.trick_model.specs.Plan.{threads_beside};
ghost use Rattle.trick_model.specs.PlanOf.{plan_of};
ghost use Rattle.trick_model.specs.State.{seen};
ghost use Rattle.trick_post_work.specs.Polls.{Poll};
ghost use Rattle.trick_exec_meaning.specs.Rounds.{Chooses, patience, wait_at};

use crate::round::has_round;
use crate::waiting::PATIENCE;
use std::alloc::{AllocError, Global};
use trick_exec_posts::Station;
use trick_lang::Cells;
use trick_model::{Entry, State};
use trick_post_work::{Posted, Posts};

// Whether a round in flight is published that has waited so long: it is ready, or it waited long enough.
fn is_published<P: Posts>(thread: u8, waited: u64, turn: u64, posts: &mut P) -> bool
    requires started { IsSome (P.in_flight posts.old thread) }
    ensures asked { P.asked posts.old (polls_for thread waited turn result) posts.new }
    ensures unasked { patience ≤ waited → result ≡ true }
    ensures same { AreAsIs P.Posts posts.old posts.new }
{
    if waited >= PATIENCE {
        return true;
    }
    match posts.poll(thread, turn) {
        Posted::Ready => true,
        Posted::NotYet => false,
    }
}

// Adds the publication of the round of a place, if it has one that is published.
fn add_published<M: Cells, P: Posts>(
    place: usize,
    station: &Station,
    state: &State<M>,
    waits: &[u64],
    posts: &mut P,
    chosen: &mut Vec<Entry>,
) -> Result<(), AllocError>
    requires seat { IsSeat (plan_of (P.plan posts.old)) place station.now }
    requires goes { GoesWith (P.plan posts.old) (P.in_flight posts.old) state.now.tic (seen M.numbers state.now)
        (M.scalars state.now.memory) }
    requires waits { place < length waits.now }
    ensures adds { OnOk result (Adds P.Posts (seen M.numbers state.now) waits.now place station.now.thread
        posts.old posts.new chosen.old.items chosen.new.items) }
    ensures same { AreAsIs P.Posts posts.old posts.new }
{
    let thread = station.thread;
    if !has_round(state, place, thread) {
        return Ok(());
    }
    if is_published(thread.number, waits[place], state.turn, posts) {
        chosen.push(Entry::Publish {
            thread: thread.number,
        })?;
    }
    Ok(())
}

/// The publications of a run frame, in thread order: of each asynchronous thread with a round in flight it
/// is asked whether the round is ready, and it is published where it is; one that has waited long enough is
/// published unasked. The only refusal is for want of memory.
pub fn choose<M: Cells, P: Posts>(
    alloc: Global,
    stations: &[Station],
    state: &State<M>,
    waits: &[u64],
    posts: &mut P,
) -> Result<Vec<Entry>, AllocError>
    requires stations { AreStations (plan_of (P.plan posts.old)) stations.now }
    requires goes { GoesWith (P.plan posts.old) (P.in_flight posts.old) state.now.tic (seen M.numbers state.now)
        (M.scalars state.now.memory) }
    requires waits { length waits.now ≡ length stations.now }
    ensures chosen { IfOk result (λ entries. (polls : List Poll) × P.asked posts.old polls posts.new
        × Chooses (seen M.numbers state.now) waits.now (threads_beside (plan_of (P.plan posts.old)))
        entries.items polls) }
    ensures same { AreAsIs P.Posts posts.old posts.new }
{
    let mut chosen = Vec::new(alloc);
    for place in 0..stations.len() {
        add_published(place, &stations[place], state, waits, posts, &mut chosen)?;
    }
    Ok(chosen)
}
