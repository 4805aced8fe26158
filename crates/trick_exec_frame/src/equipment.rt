//! What a run keeps beside its state.

ghost use Rattle.std.specs.Prelude.{◌≡◌, ◌+◌, ◌≤◌, IfOk};
ghost use Rattle.trick_eval.specs.Bench.{IsFor};
ghost use Rattle.trick_model.specs.State.{seen};
ghost use Rattle.trick_base.specs.Time.{tic_limit};
ghost use Rattle.trick_exec_tic.specs.Course.{IsCourseOf};

use std::alloc::{AllocError, Global};
use std::sync::ledger::Ledger;
use trick_eval::Bench;
use trick_exec_tic::Course;
use trick_lang::Cells;
use trick_model::{Accepted, State};
use trick_queue::Steps;

/// What a run keeps beside its state: its course, and a bench for the jobs of classes. It is made once.
#[derive(Drop)]
pub struct Equipment<L: Ledger> {
    pub course: Course<L>,
    pub bench: Bench,
}

impl<L: Ledger> Equipment<L> {
    /// That of a run of an accepted plan that goes on from a state. Its tics count on in `steps`.
    pub fn new<M: Cells>(
        alloc: Global,
        accepted: &Accepted,
        state: &State<M>,
        steps: Steps<L>,
    ) -> Result<Self, AllocError>
        requires { state.now.tic ≤ tic_limit + 1 }
        ensures course { IfOk result (λ equipment. IsCourseOf accepted.now.plan equipment.course (seen M.numbers state.now)) }
        ensures bench { IfOk result (λ equipment. IsFor accepted.now.plan.program equipment.bench.parts) }
    {
        let plan = accepted.plan();
        let course = Course::new(alloc, plan, state, steps)?;
        let bench = Bench::of(alloc, &plan.program, accepted.accesses())?;
        Ok(Equipment { course, bench })
    }
}
