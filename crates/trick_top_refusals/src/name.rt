//! What lines call the texts and the parts of a plan.

ghost use Rattle.std.specs.Prelude.{◌≡◌, IfOk};
ghost use Rattle.trick_model.specs.PlanOf.{plan_of};
ghost use Rattle.trick_top_refusals.specs.Plan.{event as event_text, group as group_text, job as job_text};

use itoa::Buffer;
use std::alloc::{AllocError, Global};
use trick_lang::JobId;
use trick_model::{Plan, instance_at, push_name_at};

/// The two texts that describe a simulation, and the two that a run may go by besides.
pub(crate) const S_DEFINE: &[u8] = b"S_define";

pub(crate) const INPUT: &[u8] = b"input";

pub(crate) const CHECKPOINT: &[u8] = b"checkpoint";

pub(crate) const JOURNAL: &[u8] = b"journal";

/// The name of a group; nothing, where it is not there.
pub(crate) fn group(plan: &Plan, group: usize) -> &[u8]
    ensures { result.now ≡ group_text (plan_of plan.now) group }
{
    match plan.groups.as_slice().get(group) {
        Some(group) => group.name.as_slice(),
        None => b"",
    }
}

/// The name of an event; nothing, where it is not there.
pub(crate) fn event(plan: &Plan, event: usize) -> &[u8]
    ensures { result.now ≡ event_text (plan_of plan.now) event }
{
    match plan.events.as_slice().get(event) {
        Some(event) => event.name.as_slice(),
        None => b"",
    }
}

/// The name of a job, which is that of its object, a dot and that of its method, and after a space its
/// instance.
pub(crate) fn job(alloc: Global, plan: &Plan, job: JobId) -> Result<Vec<u8>, AllocError>
    ensures { IfOk result (λ text. text.items ≡ job_text (plan_of plan.now) job.0) }
{
    let program = &plan.program;
    let mut text = Vec::new(alloc);
    push_name_at(&mut text, program, job)?;
    text.extend_from_slice(b" ")?;
    text.extend_from_slice(Buffer::new().format(instance_at(program, job)).as_bytes())?;
    Ok(text)
}
