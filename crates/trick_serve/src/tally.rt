//! What a served run comes to, once its clients are closed.

ghost use Rattle.std.specs.Prelude.{◌≡◌, ◌&&◌, length, not};
ghost use Rattle.trick_serve.specs.Ending.{concluded as concluded_of};

use crate::serving::Service;
use trick_exec_alone::Summary;
use trick_outside::Stop;
use trick_serve_clients::Closed;
use trick_serve_source::Served;

// What a source of entries tells at the end of a run.
#[derive(Drop)]
pub(crate) struct Tally {
    // How many clients joined.
    sessions: u64,
    // There was memory for each list that it was asked for.
    whole: bool,
}

/// What a source of entries tells now.
pub(crate) fn tally_of<I, O, R>(served: &Served<I, O, R>) -> Tally
    ensures { result ≡ record {
      sessions = length served.now.roll.seats.items;
      whole = not served.now.broke;
    } }
{
    Tally {
        sessions: served.count() as u64,
        whole: served.is_whole(),
    }
}

// How a run ended: where there was no memory for its clients it has stopped for that.
fn concluded(ended: Result<Summary, Stop>, whole: bool) -> Result<Summary, Stop>
    ensures { result ≡ concluded_of ended whole }
{
    match ended {
        Ok(_) if !whole => Err(Stop::Memory),
        ended => ended,
    }
}

/// What a run comes to that ended so, by what its source of entries told then and by its closed clients.
pub(crate) fn service_of<D, S>(
    ended: Result<Summary, Stop>,
    tally: Tally,
    closed: Closed<D, S>,
) -> Service<D, S>
    ensures { result ≡ record {
      ended = concluded_of ended (tally.whole && not closed.lacked);
      sessions = tally.sessions;
      door = closed.door;
      spawner = closed.spawner;
    } }
{
    let Closed {
        door,
        spawner,
        lacked,
    } = closed;
    Service {
        ended: concluded(ended, tally.whole && !lacked),
        sessions: tally.sessions,
        door,
        spawner,
    }
}
