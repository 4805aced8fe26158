//! How the sessions are ended, one after another, and the links go back to their door.

ghost use Rattle.std.specs.Prelude.{◌≡◌, ◌≢◌, ◌≤◌, ◌∷◌, ◌++◌, [], List, MatchOption, map, vec_len};
ghost use Rattle.trick_serve_clients.specs.Ends.{AreItsEnds, ends_left, seat_ends};
ghost use Rattle.trick_serve_clients.specs.Ending.{EndsAll, IsEndedBy};
ghost use Rattle.trick_serve_seats.specs.Pairs.{AllFit};

use std::sync::Wait;
use trick_outside::{Door, LinkIn, LinkOut};
use trick_serve_door::{Ends, Past, SessionEnd, end_session};
use trick_serve_hearing::Seat;

// The ends of the sessions that are not ended yet: of those with seats and of those that came late, each with the last
// of them first.
#[derive(Drop)]
pub(crate) struct EndsLeft {
    pub(crate) seats: Vec<Seat>,
    pub(crate) late: Vec<Ends>,
}

impl EndsLeft {
    // The ends of all sessions, in the order of their numbers.
    pub(crate) fn new(seats: Vec<Seat>, late: Vec<Ends>) -> EndsLeft
        ensures { ends_left result ≡ map seat_ends seats.items ++ late.items }
    {
        let mut seats = seats;
        let mut late = late;
        seats.reverse();
        late.reverse();
        EndsLeft { seats, late }
    }

    // The ends of the next session.
    fn next(&mut self) -> Option<Ends>
        ensures { MatchOption result ((ends_left self.old ≡ []) × (ends_left self.new ≡ []))
            (λ ends. ends_left self.old ≡ ends ∷ ends_left self.new) }
    {
        match self.seats.pop() {
            Some(seat) => Some(seat.into_ends()),
            None => self.late.pop(),
        }
    }
}

// Ends the next session, whose threads handed this back.
fn end_next<I: LinkIn + Drop, O: LinkOut + Drop, R: Wait>(
    rt: &R,
    ends: &mut EndsLeft,
    past: Past<I, O>,
) -> SessionEnd<I, O>
    requires { (pasts : List (Past I O)) × AllFit AreItsEnds (ends_left ends.old) (past ∷ pasts) }
    ensures { (mine : Ends) × (ends_left ends.old ≡ mine ∷ ends_left ends.new)
        × IsEndedBy I.LinkIn O.LinkOut mine past result }
{
    let Some(mine) = ends.next() else {
        unreachable!()
    };
    end_session(rt, mine, past)
}

/// Ends the sessions of all clients in the order of their numbers, which begin with 1, and gives the links of each back
/// to their door at once. Place n - 1 has what the threads of client n handed back. Answers whether there was no memory
/// for the messages to one, of which its caller was not told. Takes no memory.
pub(crate) fn end_all<D: Door, R: Wait>(
    rt: &R,
    door: &mut D,
    ends: EndsLeft,
    pasts: Vec<Past<D::In, D::Out>>,
) -> bool
where
    D::In: Drop,
    D::Out: Drop,
    requires numbers { vec_len pasts ≤ 4294967295 }
    requires fit { AllFit AreItsEnds (ends_left ends) pasts.items }
    ensures ended { EndsAll D.visited D.In.LinkIn D.Out.LinkOut door.old door.new (ends_left ends) pasts.items
        result }
    ensures failures { D.failures door.new ≡ D.failures door.old }
    ensures idle { D.idleness door.new ≡ D.idleness door.old }
{
    let mut ends = ends;
    let mut left = pasts;
    left.reverse();
    let mut number: u32 = 0;
    let mut has_lacked = false;
    while let Some(past) = left.pop() {
        number += 1;
        let SessionEnd {
            input,
            output,
            lacked,
            ..
        } = end_next(rt, &mut ends, past);
        has_lacked = has_lacked || lacked;
        door.back(number, input, output);
    }
    has_lacked
}
