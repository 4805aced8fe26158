ghost use Rattle.std.specs.Prelude.{◌≡◌, ◌≢◌, ◌↔◌, ◌+◌, ◌∷◌, ◌≤◌, ◌<◌, ◌++◌, [], false, true, vec_capacity, vec_len};
ghost use Rattle.trick_outside.specs.Causes.{HasCause};

use crate::fault_plan::FaultPlan;
use crate::{Came, Door, LinkIn, LinkOut};
use std::alloc::Global;
use std::collections::VecDeque;

/// The links of a client that were given back, and its number.
#[derive(Debug, Drop)]
pub struct Returned<I, O> {
    pub number: u32,
    pub input: I,
    pub output: O,
}

/// A door over memory, which gives the clients of a list, in order, and has then ended. It keeps the links
/// that are given back.
#[derive(Debug, Drop)]
pub struct ScriptDoor<I, O> {
    waiting: VecDeque<(I, O)>,
    returned: Vec<Returned<I, O>>,
    // How many clients were given and not given back yet. There is room for them.
    given: usize,
    over: bool,
    plan: FaultPlan,
    idle: FaultPlan,
    ghost room: { vec_len returned + given ≤ vec_capacity returned },
}

impl<I, O> ScriptDoor<I, O> {
    ghost use Rattle.trick_outside.specs.FaultPlan.{IsFresh, IsQuiet};

    /// A door that gives these clients, and never fails.
    pub fn new(alloc: Global, clients: VecDeque<(I, O)>) -> ScriptDoor<I, O>
        ensures waiting { result.waiting.items ≡ clients.items }
        ensures none { result.returned.items ≡ [] }
        ensures open { result.over ≡ false }
        ensures never { IsQuiet result.plan }
        ensures never_idle { IsQuiet result.idle }
    {
        ScriptDoor {
            waiting: clients,
            returned: Vec::new(alloc),
            given: 0,
            over: false,
            plan: FaultPlan::never(alloc),
            idle: FaultPlan::never(alloc),
        }
    }

    /// A door that gives these clients, and fails where it is asked at these numbers, the first call of
    /// `next` being number 0.
    pub fn failing(alloc: Global, clients: VecDeque<(I, O)>, calls: Vec<u64>) -> ScriptDoor<I, O>
        ensures waiting { result.waiting.items ≡ clients.items }
        ensures none { result.returned.items ≡ [] }
        ensures open { result.over ≡ false }
        ensures failing { IsFresh result.plan calls.items }
        ensures never_idle { IsQuiet result.idle }
    {
        ScriptDoor {
            waiting: clients,
            returned: Vec::new(alloc),
            given: 0,
            over: false,
            plan: FaultPlan::at(calls),
            idle: FaultPlan::never(alloc),
        }
    }

    /// The door, at which no client has come yet where it is asked at these numbers. Calls of `next` that
    /// fail are not counted among them.
    pub fn with_idle(self, calls: Vec<u64>) -> ScriptDoor<I, O>
        ensures waiting { result.waiting.items ≡ self.waiting.items }
        ensures returned { result.returned.items ≡ self.returned.items }
        ensures over { result.over ≡ self.over }
        ensures uncounted { result.plan ≡ self.plan }
        ensures idle { IsFresh result.idle calls.items }
    {
        let mut door = self;
        door.idle = FaultPlan::at(calls);
        door
    }

    /// The links that were given back, in order: at most as many as were given.
    pub fn returned(&self) -> &[Returned<I, O>]
        ensures { result.now ≡ self.now.returned.items }
    {
        &self.returned
    }
}

impl<I: LinkIn, O: LinkOut> Door for ScriptDoor<I, O>
where
    I: Drop,
    O: Drop,
{
    ghost use Rattle.std.proofs.Common.{refl};
    ghost use Rattle.trick_outside.specs.FaultPlan.{FailsNext};
    ghost use Rattle.trick_outside.specs.Scripts.{returned_as};
    ghost use Rattle.trick_outside.specs.VisitLaws.{waiting_join};
    ghost use Rattle.trick_outside.specs.Visits.{Back, GivesClient, asked, clients};

    type In = I;

    type Out = O;

    ghost failures = { λ door. door.plan.faults };

    ghost idleness = { λ door. door.idle.faults };

    // The clients that it gave are the first of those that were waiting.
    ghost visited = { λ old visits new. old.waiting.items ≡ clients visits ++ new.waiting.items };

    ghost has_client = { λ door. (door.over ≡ false) × (door.waiting.items ≢ []) × (FailsNext door.plan → ⊥)
        × (FailsNext door.idle → ⊥) };

    ghost has_ended = { λ door. door.over ≡ true };

    fn next(&mut self) -> Came<I, O> {
        if self.over {
            return Came::Ended;
        }
        if self.plan.fails() {
            return Came::Failed;
        }
        if self.idle.fails() {
            return Came::NotYet;
        }
        let given = self.given.saturating_add(1);
        if self.returned.reserve(given).is_err() {
            return Came::OutOfMemory;
        }
        match self.waiting.pop_front() {
            Some((input, output)) => {
                self.given = given;
                Came::Client(input, output)
            }
            None => {
                self.over = true;
                Came::Ended
            }
        }
    }

    fn back(&mut self, number: u32, input: I, output: O)
        ensures visited { self.old.waiting.items ≡ clients (Back number input output ∷ []) ++ self.new.waiting.items }
        ensures failures { self.new.plan.faults ≡ self.old.plan.faults }
        ensures idle { self.new.idle.faults ≡ self.old.idle.faults }
        ensures ended { self.old.over ≡ true → self.new.over ≡ true }

        // What this form promises beyond the trait.
        ensures kept { 0 < self.old.given
            → self.new.returned.items ≡ self.old.returned.items ++ returned_as number input output ∷ [] }
    {
        if 0 < self.given {
            self.given -= 1;
            self.returned.push_reserved(Returned {
                number,
                input,
                output,
            });
        }
    }

    fn faults(&self) -> u64 {
        self.plan.faults()
    }

    fn idle(&self) -> u64 {
        self.idle.faults()
    }

    ghost visited_none = { λ door. refl };

    ghost visited_join = { λ first second third early late one two. waiting_join _ _ _ early late one two };
}
