//! The parts of a plan beside its program.

ghost use Rattle.std.specs.Prelude.{◌≡◌, IfOk, map};
ghost use Rattle.trick_plan_draft.specs.Jobs.{jobs_of};
ghost use Rattle.trick_plan_draft.specs.Kept.{IsDraftOf};
ghost use Rattle.trick_plan_ending.specs.Ending.{AreParts};
ghost use Rattle.trick_model.specs.Valid.{ids, queues_of};

use crate::events::events;
use crate::groups::groups;
use std::alloc::{AllocError, Global};
use std::mem;
use trick_base::Items;
use trick_lang::{Cell, JobId, Program};
use trick_model::{Depends, Event, Flags, Group, ReadAt, Thread};
use trick_plan_draft::Draft;
use trick_plan_settings::{Settings, queues};

/// What a plan has beside its program.
#[derive(Drop)]
pub struct Parts {
    /// The tics of a software frame, from 1 to 10^9.
    pub frame: u64,
    /// The first tic that is not run, at most 10^15 + 1.
    pub limit: u64,
    /// Whether the run starts in Freeze.
    pub frozen: bool,
    /// By number.
    pub threads: Items<Thread>,
    /// For each class, by rank, its jobs in key order.
    pub queues: Items<Items<JobId>>,
    /// In the order of their lines.
    pub depends: Items<Depends>,
    /// In the order of their adding.
    pub groups: Items<Group>,
    /// In the order of their adding.
    pub events: Items<Event>,
    /// In the order of their lines.
    pub reads: Items<ReadAt>,
    /// In the order of their lines.
    pub assigns: Items<(Cell, i64)>,
    /// The flags of the jobs at the start.
    pub jobs: Flags,
    /// The flags of the events at the start.
    pub events_on: Flags,
    /// The flags of the groups at the start.
    pub groups_on: Flags,
}

// Takes items out of a draft.
fn taken<T: Drop>(alloc: Global, items: &mut Items<T>) -> Items<T>
    ensures { result ≡ items.old }
{
    mem::replace(items, Items::new(alloc))
}

// The parts of the plan of a program that the lines of an input give. It takes time as there are jobs,
// groups and events, and a sort of the jobs. What the parts hold is taken out of the draft.
pub(crate) fn parts_from(
    alloc: Global,
    program: &Program,
    draft: &mut Draft,
    settings: Settings,
) -> Result<Parts, AllocError>
    requires { IsDraftOf (jobs_of program.now) settings.threads draft.old }
    ensures parts { IfOk result (AreParts draft.old settings) }
    ensures queues { IfOk result (λ parts. map ids parts.queues ≡ queues_of program.now.jobs) }
{
    let queues = queues(alloc, program)?;
    let bound_groups = taken(alloc, &mut draft.groups);
    let (groups, groups_on) = groups(alloc, bound_groups, &draft.added_groups)?;
    let bound_events = taken(alloc, &mut draft.events);
    let (events, events_on) = events(alloc, bound_events, &draft.added_events)?;
    Ok(Parts {
        frame: settings.frame,
        limit: settings.limit,
        frozen: settings.frozen,
        threads: settings.threads,
        queues,
        depends: taken(alloc, &mut draft.depends),
        groups,
        events,
        reads: taken(alloc, &mut draft.reads),
        assigns: taken(alloc, &mut draft.assigns),
        jobs: Flags {
            on: taken(alloc, &mut draft.jobs.on),
        },
        events_on,
        groups_on,
    })
}
