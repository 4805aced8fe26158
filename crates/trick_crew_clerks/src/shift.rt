//! The shift of a clerk: what the clerk does until the post is shut.
ghost use Rattle.std.specs.Prelude.{◌≡◌, ◌++◌, IfOk, true};
ghost use Rattle.trick_crew_clerks.specs.Serving.{IsIdle, HasServedFrom, errand};
ghost use Rattle.trick_post_places.specs.Histories.{has_shut};
ghost use Rattle.trick_post_places.specs.declared.picked.Picked.TheVariants as picked;
ghost use Rattle.trick_turn.specs.Passes.{own, seen};

use std::alloc::{AllocError, Global};
use std::sync::{Arc, Wait};
use trick_model::Planned;
use trick_outside::{Gate, NoGate, Work};
use trick_post::{Clerk, Picked};

/// A clerk with what it needs to work in a thread of its own. It is moved into the thread that runs it.
#[derive(Drop)]
pub struct Shift<P: Planned, G: Gate + Drop, R: Wait + Drop> {
    rt: R,
    pub(crate) clerk: Clerk<P>,
    gate: Arc<G, Global>,
}

// Passes the gate before the clerk does what it has picked, which begins at this tic and with this job. A thread without
// jobs passes none.
fn pass_gate<P: Planned, G: Gate>(clerk: &Clerk<P>, gate: &G) {
    if let Some(job) = clerk.first_job() {
        gate.between(clerk.thread, clerk.tic(), job.0);
    }
}

// Does what waits for the clerk's thread, if anything does, and passes the gate before the work. It waits for the turn
// alone.
fn step<P: Planned, G: Gate, R: Wait>(rt: &R, clerk: &mut Clerk<P>, gate: &G) -> Picked
    ensures lock { clerk.new.lock ≡ clerk.old.lock }
    ensures thread { clerk.new.thread ≡ clerk.old.thread }
    ensures work { own clerk.new.pass ≡ own clerk.old.pass ++ errand clerk.old.thread result }
    ensures idle { IsIdle clerk.new }
    ensures shut { result ≡ picked.Shut → has_shut (seen clerk.new.pass) ≡ true }
{
    match clerk.pick(rt) {
        Picked::Got => {
            pass_gate(clerk, gate);
            clerk.put_back(rt);
            Picked::Got
        }
        Picked::Nothing => Picked::Nothing,
        Picked::Shut => Picked::Shut,
    }
}

// Does what waits for a thread until the post is shut. It sleeps where there is nothing to do.
fn serve<P: Planned, G: Gate, R: Wait>(rt: &R, clerk: &mut Clerk<P>, gate: &G)
    ensures { HasServedFrom clerk.old clerk.new }
{
    for _ in rt.forever() {
        let mark = clerk.mark();
        match step(rt, clerk, gate) {
            Picked::Got => {}
            Picked::Nothing => clerk.rest_since(rt, mark),
            Picked::Shut => return,
        }
    }
}

impl<P: Planned, G: Gate + Drop, R: Wait + Drop> Shift<P, G, R> {
    /// The shift of a clerk, who will pass this gate.
    pub(crate) fn new(rt: R, clerk: Clerk<P>, gate: &Arc<G, Global>) -> Result<Self, AllocError>
        ensures clerk { IfOk result (λ shift. shift.clerk ≡ clerk) }
    {
        let gate = Arc::try_clone(gate)?;
        Ok(Shift { rt, clerk, gate })
    }

    /// Does what waits for the clerk's thread, if anything does, in the thread of the caller, which passes no gate. It
    /// waits for the turn alone.
    pub(crate) fn attend(&mut self)
        ensures lock { self.new.clerk.lock ≡ self.old.clerk.lock }
        ensures thread { self.new.clerk.thread ≡ self.old.clerk.thread }
        ensures idle { IsIdle self.new.clerk }
    {
        step(&self.rt, &mut self.clerk, &NoGate);
    }

    /// The clerk, where its shift was not started.
    pub(crate) fn into_clerk(self) -> Clerk<P>
        ensures { result ≡ self.clerk }
    {
        let Shift { clerk, .. } = self;
        clerk
    }
}

impl<P: Planned + Send, G: Gate + Send + Sync + Drop, R: Wait + Send + Drop> Work
    for Shift<P, G, R> {
    ghost use Rattle.trick_crew_clerks.specs.Serving.{HasServed};

    type Out = Clerk<P>;

    ghost promises = { HasServed };

    fn run(self) -> Clerk<P> {
        let Shift {
            rt,
            mut clerk,
            gate,
        } = self;
        serve(&rt, &mut clerk, &*gate);
        clerk
    }
}
