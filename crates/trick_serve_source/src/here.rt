//! The source of entries of a run whose caller asks the door himself.

ghost use Rattle.trick_serve_source.specs.Here.{WentHere};

use crate::Served;
use std::alloc::{AllocError, Global};
use std::sync::Wait;
use trick_exec_sources::{Next, Turns};
use trick_lang::Cells;
use trick_model::{Session, State};
use trick_outside::{Door, Spawner};
use trick_serve_door::Asking;

/// The clients of a run as its source of entries, where no thread takes them: the door is asked before each look at
/// what came.
#[derive(Drop)]
pub struct ServedHere<D: Door + Drop, S: Drop, R: Drop>
where
    D::In: Drop,
    D::Out: Drop,
{
    /// The clients that came.
    pub served: Served<D::In, D::Out, R>,
    /// Who asks the door.
    pub asking: Asking<D, S, R>,
}

impl<M: Cells, D: Door + Drop, S: Spawner + Drop, R: Wait + Copy + Drop> Turns<M>
    for ServedHere<D, S, R>
where
    D::In: Drop,
    D::Out: Drop,
{
    ghost use Rattle.std.specs.Prelude.{◌<◌, ◌≤◌, None, false, length};
    ghost use Rattle.trick_serve_source.specs.CallLaws.{seated_among};
    ghost use Rattle.trick_serve_source.specs.Here.{went_here_join, went_here_none};
    ghost use Rattle.trick_serve_hearing.specs.Rules.{sessions_by};
    ghost use Rattle.trick_serve_seats.specs.Taking.{hosts};

    ghost went = { λ old answers messages new. WentHere
        (hosts D.visited D.In.LinkIn D.Out.LinkOut S.failures D.has_client) old new answers messages };

    ghost owes = { λ turns. false };

    ghost journal = { λ turns. None };

    ghost decided = { λ turns. false };

    ghost sessions = { λ turns. sessions_by turns.served.roll.seats.items turns.served.roll.live.items
        turns.served.reached.items };

    ghost takes = { λ turns session. (0 < session) × (session ≤ length turns.served.roll.seats.items) };

    // Whoever asks the door himself does so in each turn, so that no turn passes without a look.
    fn gives_nothing(&mut self, _state: &State<M>, _there: &[Session]) -> bool {
        false
    }

    fn entries(&mut self, alloc: Global, state: &State<M>, there: &[Session]) -> Next {
        self.served.next(&mut self.asking, alloc, state, there)
    }

    fn ends(&mut self, _turn: u64) -> Option<(u64, u64)> {
        None
    }

    fn decides(&self) -> bool {
        false
    }

    fn send(&mut self, session: u32, bytes: &[u8]) -> Result<(), AllocError> {
        <Served<D::In, D::Out, R> as Turns<M>>::send(&mut self.served, session, bytes)
    }

    ghost reaches = { λ turns session there. seated_among session turns.served.reached.items
        turns.served.roll.seats.items turns.served.reach there };

    ghost went_none = { λ turns. went_here_none _ turns };

    ghost went_join = { λ first second third early late some more one two.
        went_here_join _ first second third early late some more one two };
}
