//! The plan of a program, once all lines of an input were taken.

ghost use Rattle.std.specs.Prelude.{◌≡◌, ◌+◌, ◌≤◌, IfOk};
ghost use Rattle.trick_plan_draft.specs.Jobs.{jobs_of};
ghost use Rattle.trick_plan_draft.specs.Kept.{IsDraftOf, Mirrors};
ghost use Rattle.trick_plan_ending.specs.Ending.{IsEnding, parts_of};
ghost use Rattle.trick_plan_ending.specs.Right.{AreRight};
ghost use Rattle.trick_base.specs.Time.{tic_limit};
ghost use Rattle.trick_model.specs.Valid.{IsFrame};
ghost use Rattle.trick_plan_settings.specs.Threads.{AreThreads};

use crate::Parts;
use crate::parts::parts_from;
use std::alloc::{AllocError, Global};
use trick_lang::Program;
use trick_model::Plan;
use trick_plan_draft::{Draft, laws};
use trick_plan_settings::Settings;

// The plan of a program with these parts.
fn joined(program: Program, parts: Parts) -> Plan
    requires { AreRight program parts }
    ensures program { result.program ≡ program }
    ensures parts { parts_of result ≡ parts }
{
    let Parts {
        frame,
        limit,
        frozen,
        threads,
        queues,
        depends,
        groups,
        events,
        reads,
        assigns,
        jobs,
        events_on,
        groups_on,
    } = parts;
    Plan {
        program,
        frame,
        limit,
        frozen,
        threads,
        queues,
        depends,
        groups,
        events,
        reads,
        assigns,
        jobs,
        events_on,
        groups_on,
    }
}

/// The plan of a program: what the draft of an input says once all its lines were taken, with what they
/// say of the run and of its threads. Groups and events are those that are added, in the order of their
/// adding. It takes time as there are jobs, groups and events, and a sort of the jobs; a refusal is one
/// for want of memory. The page RULES of the documents says what a plan has.
pub fn end(
    alloc: Global,
    program: Program,
    draft: Draft,
    settings: Settings,
) -> Result<Plan, AllocError>
    requires cells { Mirrors program draft }
    requires draft { IsDraftOf (jobs_of program) settings.threads draft }
    requires threads { AreThreads program.jobs settings.threads }
    requires frame { IsFrame settings.frame }
    requires limit { settings.limit ≤ tic_limit + 1 }
    ensures { IfOk result (IsEnding program draft settings) }
{
    laws::cells_are_mirrored();
    let mut draft = draft;
    let parts = parts_from(alloc, &program, &mut draft, settings)?;
    Ok(joined(program, parts))
}
