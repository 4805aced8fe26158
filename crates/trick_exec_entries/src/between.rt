//! What a client's line asks the run for.

ghost use Rattle.std.specs.Prelude.{◌≡◌, IfSome, Some};
ghost use Rattle.trick_eval.specs.Bench.{IsFor};
ghost use Rattle.trick_phase_jobs.specs.Belongs.{IsMemoryOf};
ghost use Rattle.trick_model.specs.Events.{names_of};
ghost use Rattle.trick_model.specs.PlanOf.{plan_of};
ghost use Rattle.trick_model.specs.Turn.{do_between, resumed};
ghost use Rattle.trick_model.specs.Valid.{IsDeedAmong};
ghost use Rattle.trick_exec_tic.specs.Current.{asking_of};

use trick_eval::Bench;
use trick_event::{Moment, act};
use trick_exec_classes::{enter_freeze, leave_freeze};
use trick_exec_tic::Current;
use trick_lang::Cells;
use trick_model::{Deed, Plan};
use trick_session::Reply;

// Does a deed of a client between two tics. Freeze is entered at once.
fn act_between<M: Cells>(plan: &Plan, deed: Deed, current: &mut Current<M>, bench: &mut Bench)
    requires bench { IsFor plan.now.program bench.old.parts }
    requires memory { IsMemoryOf plan.now.program (M.numbers current.old.state.memory)
        (M.scalars current.old.state.memory) }
    requires deed { IsDeedAmong (names_of (plan_of plan.now)) deed }
    ensures acted { asking_of M.numbers current.new
        ≡ do_between (plan_of plan.now) (Some deed) (asking_of M.numbers current.old) }
    ensures memory { IsMemoryOf plan.now.program (M.numbers current.new.state.memory)
        (M.scalars current.new.state.memory) }
    ensures bench { bench.new.parts ≡ bench.old.parts }
{
    match deed {
        Deed::Freeze => enter_freeze(plan, &mut current.state, bench),
        _ => act(
            deed,
            &mut current.state,
            &mut current.asked,
            Moment::Between,
        ),
    }
}

// Does the deed that a reply asks for, if there is one.
fn act_asked<M: Cells>(plan: &Plan, deed: Option<Deed>, current: &mut Current<M>, bench: &mut Bench)
    requires bench { IsFor plan.now.program bench.old.parts }
    requires memory { IsMemoryOf plan.now.program (M.numbers current.old.state.memory)
        (M.scalars current.old.state.memory) }
    requires deed { IfSome deed (IsDeedAmong (names_of (plan_of plan.now))) }
    ensures acted { asking_of M.numbers current.new
        ≡ do_between (plan_of plan.now) deed (asking_of M.numbers current.old) }
    ensures memory { IsMemoryOf plan.now.program (M.numbers current.new.state.memory)
        (M.scalars current.new.state.memory) }
    ensures bench { bench.new.parts ≡ bench.old.parts }
{
    if let Some(deed) = deed {
        act_between(plan, deed, current, bench);
    }
}

// Leaves Freeze where a reply asks for it.
fn resume<M: Cells>(plan: &Plan, run: bool, current: &mut Current<M>, bench: &mut Bench)
    requires bench { IsFor plan.now.program bench.old.parts }
    requires memory { IsMemoryOf plan.now.program (M.numbers current.old.state.memory)
        (M.scalars current.old.state.memory) }
    ensures resumed { asking_of M.numbers current.new
        ≡ resumed (plan_of plan.now) run (asking_of M.numbers current.old) }
    ensures memory { IsMemoryOf plan.now.program (M.numbers current.new.state.memory)
        (M.scalars current.new.state.memory) }
    ensures bench { bench.new.parts ≡ bench.old.parts }
{
    if run {
        leave_freeze(plan, &mut current.state, bench);
    }
}

/// Does what a line asks for besides its reply: a deed, and then to leave Freeze.
pub(crate) fn follow<M: Cells>(
    plan: &Plan,
    reply: &Reply,
    current: &mut Current<M>,
    bench: &mut Bench,
)
    requires bench { IsFor plan.now.program bench.old.parts }
    requires memory { IsMemoryOf plan.now.program (M.numbers current.old.state.memory)
        (M.scalars current.old.state.memory) }
    requires deed { IfSome reply.now.act (IsDeedAmong (names_of (plan_of plan.now))) }
    ensures followed { asking_of M.numbers current.new
        ≡ resumed (plan_of plan.now) reply.now.run
        (do_between (plan_of plan.now) reply.now.act (asking_of M.numbers current.old)) }
    ensures memory { IsMemoryOf plan.now.program (M.numbers current.new.state.memory)
        (M.scalars current.new.state.memory) }
    ensures bench { bench.new.parts ≡ bench.old.parts }
{
    act_asked(plan, reply.act, current, bench);
    resume(plan, reply.run, current, bench);
}
