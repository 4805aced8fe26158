//! How long rounds stay unpublished.

ghost use Rattle.std.specs.List.{slice_index_or};
ghost use Rattle.std.specs.Prelude.{◌≡◌, ◌<◌, ◌+◌, min, length};
ghost use Rattle.trick_exec_posts.specs.Stations.{AreStations};
ghost use Rattle.trick_model.specs.Plan.{threads_beside};
ghost use Rattle.trick_model.specs.PlanOf.{plan_of};
ghost use Rattle.trick_model.specs.State.{seen};
ghost use Rattle.trick_model.specs.declared.plan.Plan.{Plan as PlanValue};
ghost use Rattle.trick_exec_meaning.specs.Rounds.{patience, is_publication_of as is_publication, is_published as is_published_of, waited_at as waited_of, waited_from};

use crate::round::has_round;
use trick_exec_posts::Station;
use trick_lang::Cells;
use trick_model::{Entry, State, Thread};

/// At so many run frames a round may stay unpublished; at the next one it is published unasked.
pub(crate) const PATIENCE: u64 = 1000;

// Whether an entry publishes the round of the thread of a number.
fn is_publication_of(number: u8, entry: &Entry) -> bool
    ensures { result ≡ is_publication number entry.now }
{
    match entry {
        Entry::Publish { thread } => *thread == number,
        Entry::Join { .. } | Entry::Said { .. } | Entry::Leave { .. } => false,
    }
}

// Whether one of these entries publishes it.
fn is_published(number: u8, entries: &[Entry]) -> bool
    ensures { result ≡ is_published_of number entries.now }
{
    entries.iter().any(|entry| is_publication_of(number, entry))
}

// One run frame more than so many.
fn one_more(waited: u64) -> u64
    ensures { result ≡ min (waited + 1) patience }
{
    if waited < PATIENCE {
        waited + 1
    } else {
        PATIENCE
    }
}

// How long the round of a place has waited after a run frame.
fn waited_at<M: Cells>(
    state: &State<M>,
    waits: &[u64],
    published: &[Entry],
    place: usize,
    thread: Thread,
) -> u64
    requires { place < length waits.now }
    ensures { result ≡ waited_of (seen M.numbers state.now) waits.now published.now place thread }
{
    if !has_round(state, place, thread) {
        return 0;
    }
    if is_published(thread.number, published) {
        return 0;
    }
    one_more(waits[place])
}

/// How long each round has waited after a run frame with these publications: one that is in flight and is
/// not published one run frame more, and else none. Takes no memory.
pub fn wait<M: Cells>(
    stations: &[Station],
    state: &State<M>,
    published: &[Entry],
    waits: &mut [u64],
)
    requires { length waits.old ≡ length stations.now }
    ensures waits { (plan : PlanValue) → AreStations (plan_of plan) stations.now → waits.new
        ≡ waited_from (seen M.numbers state.now) waits.old published.now 0 (threads_beside (plan_of plan)) }
    ensures as_many { length waits.new ≡ length stations.now }
{
    for place in 0..stations.len() {
        waits[place] = waited_at(state, waits, published, place, stations[place].thread);
    }
}
