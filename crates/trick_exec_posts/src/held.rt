//! What the records of a state hold, started again.

ghost use Rattle.std.specs.Prelude.{◌≡◌, ◌≢◌, ℕ, None};
ghost use Rattle.trick_exec_posts.specs.Flight.{AsksNothing, GoesWith, IsFree, flight};
ghost use Rattle.trick_exec_posts.specs.Stations.{AreStations, IsSeat};
ghost use Rattle.trick_phase_jobs.specs.Belongs.{IsMemoryOf};
ghost use Rattle.trick_model.specs.PlanOf.{plan_of};
ghost use Rattle.trick_model.specs.State.{seen, taken_at};
ghost use Rattle.trick_model.specs.ValidState.{IsStateOf};

use crate::Station;
use crate::frames::work_at;
use crate::seat::Seat;
use trick_lang::Cells;
use trick_model::State;
use trick_post_work::Posts;

// Starts what the record of a thread holds, if it holds something.
fn start_seat<M: Cells, P: Posts>(seat: Seat, state: &State<M>, posts: &mut P)
    requires seat { IsSeat (plan_of (P.plan posts.old)) seat.place seat.station.now }
    requires valid { IsStateOf (plan_of (P.plan posts.old)) (seen M.numbers state.now) }
    requires free { P.in_flight posts.old seat.station.now.thread.number ≡ None }
    ensures started { P.in_flight posts.new seat.entry.station.now.thread.number
        ≡ flight seat.entry.station.now.thread state.now.tic (taken_at (seen M.numbers state.now) seat.entry.place) }
    ensures others { (n : ℕ) → n ≢ seat.entry.station.now.thread.number
        → P.in_flight posts.new n ≡ P.in_flight posts.old n }
    ensures asks { AsksNothing P.Posts posts.old posts.new }
{
    if !state.is_held(seat.place) {
        return;
    }
    let thread = seat.station.thread;
    let taken = &state.taken.as_slice()[seat.place];
    posts.start(thread.number, taken, work_at(thread, state.tic));
}

/// Starts what the records of a state hold, in thread order, where nothing is in flight: of a must-finish
/// thread the tics of the cycle that ends at the state's next tic or after it, of an asynchronous thread
/// a round. So a run begins that goes on from the state. Takes no memory.
pub fn start_held<M: Cells, P: Posts>(stations: &[Station], state: &State<M>, posts: &mut P)
    requires stations { AreStations (plan_of (P.plan posts.old)) stations.now }
    requires valid { IsStateOf (plan_of (P.plan posts.old)) (seen M.numbers state.now) }
    requires memory { IsMemoryOf (P.plan posts.old).program (M.numbers state.now.memory) (M.scalars state.now.memory) }
    requires free { IsFree (plan_of (P.plan posts.old)) (P.in_flight posts.old) }
    ensures goes { GoesWith (P.plan posts.new) (P.in_flight posts.new) state.now.tic (seen M.numbers state.now)
        (M.scalars state.now.memory) }
    ensures asks { AsksNothing P.Posts posts.old posts.new }
{
    for place in 0..stations.len() {
        let station = &stations[place];
        start_seat(Seat { place, station }, state, posts);
    }
}
