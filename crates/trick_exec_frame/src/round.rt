//! What a state tells of a turn: which rounds are in flight.

ghost use Rattle.std.specs.List.{position};
ghost use Rattle.std.specs.Prelude.{◌≡◌, ◌==◌};
ghost use Rattle.trick_exec_posts.specs.Stations.{AreStations};
ghost use Rattle.trick_exec_posts.specs.declared.station.Station.{Station as StationValue};
ghost use Rattle.trick_model.specs.Beside.{has_round as has_round_of, is_in_flight as is_in_flight_of};
ghost use Rattle.trick_model.specs.PlanOf.{plan_of};
ghost use Rattle.trick_model.specs.State.{seen};
ghost use Rattle.trick_model.specs.declared.plan.Plan.{Plan as PlanValue};

use trick_exec_posts::Station;
use trick_lang::Cells;
use trick_model::{State, Thread};

/// Whether the thread of a place has a round in flight.
pub(crate) fn has_round<M: Cells>(state: &State<M>, place: usize, thread: Thread) -> bool
    ensures { result ≡ has_round_of (seen M.numbers state.now) place thread }
{
    thread.process.is_async() && state.is_held(place)
}

// The place of the thread of a number.
fn find(stations: &[Station], number: u8) -> Option<usize>
    ensures { result ≡ position (λ (station : StationValue). station.thread.number == number) stations.now }
{
    stations
        .iter()
        .position(|station| station.thread.number == number)
}

/// Whether the thread of a number is asynchronous and has a round in flight.
pub(crate) fn is_in_flight<M: Cells>(stations: &[Station], state: &State<M>, number: u8) -> bool
    ensures { (plan : PlanValue) → AreStations (plan_of plan) stations.now
        → result ≡ is_in_flight_of (plan_of plan) (seen M.numbers state.now) number }
{
    match find(stations, number) {
        Some(place) => has_round(state, place, stations[place].thread),
        None => false,
    }
}
