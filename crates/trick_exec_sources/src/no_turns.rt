use crate::{Next, Turns};
use std::alloc::{AllocError, Global};
use trick_lang::Cells;
use trick_model::{Mode, Session, State};

/// No entry ever comes: a run without clients.
#[derive(Debug, Drop)]
pub struct NoTurns;

impl<M: Cells> Turns<M> for NoTurns {
    ghost use Rattle.std.specs.Prelude.{None, false};
    ghost use Rattle.trick_exec_sources.specs.Turns.{AreSilent, no_sessions, silent_join};

    ghost went = { λ old answers messages new. AreSilent answers };

    ghost owes = { λ turns. false };

    ghost journal = { λ turns. None };

    ghost decided = { λ turns. false };

    ghost sessions = { λ turns. no_sessions };

    ghost takes = { λ turns session. Unit {0} };

    fn gives_nothing(&mut self, state: &State<M>, _live: &[Session]) -> bool {
        match state.mode {
            Mode::Freeze => false,
            Mode::Run | Mode::Shutdown => true,
        }
    }

    fn entries(&mut self, _alloc: Global, state: &State<M>, _live: &[Session]) -> Next {
        match state.mode {
            Mode::Freeze => Next::NoMore,
            Mode::Run | Mode::Shutdown => Next::Nothing,
        }
    }

    fn ends(&mut self, _turn: u64) -> Option<(u64, u64)> {
        None
    }

    fn decides(&self) -> bool {
        false
    }

    fn send(&mut self, _session: u32, _bytes: &[u8]) -> Result<(), AllocError> {
        Ok(())
    }

    ghost reaches = { λ turns session there. tt };

    ghost went_none = { λ turns. tt };

    ghost went_join = { λ first second third early late some more one two. silent_join early late one two };
}
