//! How a turn at a post ends.
ghost use Rattle.std.specs.Option.{IfSome};
ghost use Rattle.std.specs.Prelude.{◌≡◌, ◌++◌, ◌∷◌, [], None, Some, cond};
ghost use Rattle.trick_post_places.specs.Histories.{desk_seat, seat_of};
ghost use Rattle.trick_post_places.specs.Places.{Stands};
ghost use Rattle.trick_turn.specs.Passes.{Releases, number_of, seen};
ghost use Rattle.trick_turn.specs.Turns.{IsTurn, pass_left, pass_of, value_of};
ghost use Rattle.trick_turn.specs.Views.{entries_told};

use trick_model::{Planned, Taken};
use trick_post_places::{Event, Places};
use trick_post_work::Job1;
use trick_turn::{Adds, Nothing, Turn};

// Ends a turn. Where something was done for this thread, `T` tells it.
pub(crate) fn end_turn<P: Planned, T: Adds<Event>>(
    turn: Turn<'_, Places<P>>,
    thread: u8,
    done: bool,
)
    requires turn { IsTurn turn }
    requires names { IfSome (cond done T.tells None) (λ e. seat_of e ≡ number_of (pass_of turn)) }
    requires stands { Stands P.plan (value_of turn)
        (seen (pass_of turn) ++ entries_told (cond done T.tells None)) }
    ensures { Releases (cond done T.tells None) (pass_of turn.entry) (pass_left turn.exit) }
{
    let _thread = thread;
    if done {
        turn.release::<T>();
    } else {
        turn.release::<Nothing>();
    }
}

// Ends a turn that handed work to a thread. `T` tells it.
pub(crate) fn end_start<P: Planned, T: Adds<Event>>(
    turn: Turn<'_, Places<P>>,
    thread: u8,
    taken: &Taken,
    work: Job1,
)
    requires turn { IsTurn turn }
    requires first { number_of (pass_of turn) ≡ desk_seat }
    requires tells { T.tells ≡ Some (Event.Start desk_seat thread taken.now work) }
    requires stands { Stands P.plan (value_of turn)
        (seen (pass_of turn) ++ Event.Start desk_seat thread taken.now work ∷ []) }
    ensures { Releases (Some (Event.Start desk_seat thread taken.now work)) (pass_of turn.entry) (pass_left turn.exit) }
{
    let (_thread, _taken, _work) = (thread, taken, work);
    turn.release::<T>();
}
