//! The lines of what a plan is refused for.

ghost use Rattle.std.specs.Prelude.{◌≡◌, IfOk};
ghost use Rattle.trick_model.specs.PlanOf.{plan_of};
ghost use Rattle.trick_race.specs.declared.fault.PlanFault.TheVariants.{Backwards, Race};
ghost use Rattle.trick_top_refusals.specs.Plan.{plan_line as line_of};

use crate::field::Field;
use crate::line::{out_of_memory, refused};
use crate::name::{event, group, job};
use std::alloc::{AllocError, Global};
use trick_lang::JobId;
use trick_model::{Plan, cell_name};
use trick_race::PlanFault;

// The line of a target that waits for a job which is not before it.
fn backwards(
    alloc: Global,
    plan: &Plan,
    target: JobId,
    depended: JobId,
) -> Result<Vec<u8>, AllocError>
    ensures { IfOk result (λ line. line.items ≡ line_of (plan_of plan.now) (Backwards target depended)) }
{
    let target = job(alloc, plan, target)?;
    let depended = job(alloc, plan, depended)?;
    let fields = [Field::Name(&target), Field::Name(&depended)];
    refused(alloc, b"Backwards", &fields)
}

// The line of two jobs that race.
fn race(
    alloc: Global,
    plan: &Plan,
    first: JobId,
    other: JobId,
    tic: u64,
) -> Result<Vec<u8>, AllocError>
    ensures { IfOk result (λ line. line.items ≡ line_of (plan_of plan.now) (Race first other tic)) }
{
    let first = job(alloc, plan, first)?;
    let other = job(alloc, plan, other)?;
    let fields = [Field::Name(&first), Field::Name(&other), Field::Number(tic)];
    refused(alloc, b"Race", &fields)
}

/// The line of a plan that is not accepted, with its line feed: `refused`, the code, and what breaks the
/// condition: jobs by name and instance, cells by their full names, groups and events by name, threads by
/// number, and the tic. `fault` is the refusal of this plan. Refuses for want of memory alone.
pub fn plan_line(alloc: Global, plan: &Plan, fault: PlanFault) -> Result<Vec<u8>, AllocError>
    ensures { IfOk result (λ line. line.items ≡ line_of (plan_of plan.now) fault) }
{
    match fault {
        PlanFault::NoThread { thread } => {
            refused(alloc, b"NoThread", &[Field::Number(u64::from(thread))])
        }
        PlanFault::ClassOnChild { job: first } => {
            let first = job(alloc, plan, first)?;
            refused(alloc, b"ClassOnChild", &[Field::Name(&first)])
        }
        PlanFault::Backwards { target, depended } => backwards(alloc, plan, target, depended),
        PlanFault::SharedWriter {
            cell: first,
            thread,
            other,
        } => {
            let fields = [
                Field::Name(cell_name(&plan.program, first)),
                Field::Number(u64::from(thread)),
                Field::Number(u64::from(other)),
            ];
            refused(alloc, b"SharedWriter", &fields)
        }
        PlanFault::AsyncRecorded {
            group: first,
            cell: variable,
        } => {
            let fields = [
                Field::Name(group(plan, first)),
                Field::Name(cell_name(&plan.program, variable)),
            ];
            refused(alloc, b"AsyncRecorded", &fields)
        }
        PlanFault::AsyncEvent { event: first } => {
            refused(alloc, b"AsyncEvent", &[Field::Name(event(plan, first))])
        }
        PlanFault::Race {
            job: first,
            other,
            tic,
        } => race(alloc, plan, first, other, tic),
        PlanFault::OutOfMemory => out_of_memory(alloc),
    }
}
