//! What the source of a run gives the turn that comes next.

ghost use Rattle.std.specs.Prelude.{◌≡◌, []};
ghost use Rattle.trick_model.specs.State.{seen};
ghost use Rattle.trick_exec_sources.specs.Gap.{Gap, GivesNone, IfGap};
ghost use Rattle.trick_exec_sources.specs.Turns.{answered, Gives, GoesOn, Pays};

use std::alloc::Global;
use trick_exec_sources::{Next, Turns};
use trick_lang::Cells;
use trick_model::{Session, State};

/// What the turn that comes next is given, in this state, where these sessions are there. Mostly that is nothing, which
/// the source tells by a call that gives no list.
#[inline(always)]
pub fn ask<M: Cells, T: Turns<M>>(
    source: &mut T,
    alloc: Global,
    state: &State<M>,
    live: &[Session],
) -> Next
    ensures step { T.went source.old (answered (seen M.numbers state.now) live.now result) [] source.new }
    ensures pays { Pays (seen M.numbers state.now) result (T.owes source.old) (T.owes source.new) }
    ensures gives { Gives (seen M.numbers state.now) (T.journal source.old) result (T.journal source.new) }
    ensures rules { GoesOn (T.decided source.old) (T.sessions source.old) result (T.sessions source.new) }
    ensures decides { T.decided source.new ≡ T.decided source.old }
    ensures gap { IfGap result (λ turns. Gap
        (λ s old new. GivesNone T.went T.owes T.journal T.decided T.sessions live.now s old new)
        (seen M.numbers state.now) turns source.old source.new) }
{
    if source.gives_nothing(state, live) {
        return Next::Nothing;
    }
    source.entries(alloc, state, live)
}
