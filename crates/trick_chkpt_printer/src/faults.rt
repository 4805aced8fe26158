//! Lines of faults.

ghost use Rattle.std.specs.Prelude.{◌≡◌, ◌++◌, OnOk, codes, decimal};
ghost use Rattle.trick_model.specs.Checkpoint.{fault_lines, fault_text, kind_text, at, line};
ghost use Rattle.trick_chkpt_printer.specs.Parts.{when_text};
ghost use Rattle.trick_model.specs.PlanOf.{plan_of};

use crate::line::{push_indexed, push_number, push_number_line};
use std::alloc::AllocError;
use trick_lang::{FaultKind, JobFault, Program};
use trick_model::{Plan, instance_at, push_name_at};

fn kind_word(kind: FaultKind) -> &'static [u8]
    ensures { result.now ≡ kind_text kind }
{
    match kind {
        FaultKind::DivideByZero => b"DivideByZero",
        FaultKind::IndexOutOfRange => b"IndexOutOfRange",
    }
}

// Appends the tic and the job of a fault.
fn push_when(text: &mut Vec<u8>, program: &Program, fault: &JobFault) -> Result<(), AllocError>
    ensures { OnOk result (text.new.items ≡ text.old.items ++ when_text program.now fault.now) }
{
    push_number(text, fault.tic)?;
    text.extend_from_slice(b" ")?;
    push_name_at(text, program, fault.job)?;
    text.extend_from_slice(b" ")?;
    push_number(text, u64::from(instance_at(program, fault.job)))
}

/// Appends a fault: its tic, job, instance, kind and line, with spaces between.
pub fn push_fault(text: &mut Vec<u8>, plan: &Plan, fault: &JobFault) -> Result<(), AllocError>
    ensures { OnOk result (text.new.items ≡ text.old.items ++ fault_text (plan_of plan.now) fault.now) }
{
    push_when(text, &plan.program, fault)?;
    text.extend_from_slice(b" ")?;
    text.extend_from_slice(kind_word(fault.kind))?;
    text.extend_from_slice(b" ")?;
    push_number(text, u64::from(fault.line))
}

// Appends the line of a fault, by its index.
fn push_fault_line(
    text: &mut Vec<u8>,
    plan: &Plan,
    index: usize,
    fault: &JobFault,
) -> Result<(), AllocError>
    ensures { OnOk result (text.new.items ≡ text.old.items ++
        line (at (codes "fault") index) (fault_text (plan_of plan.now) fault.now)) }
{
    push_indexed(text, b"fault", index)?;
    text.extend_from_slice(b" = ")?;
    push_fault(text, plan, fault)?;
    text.extend_from_slice(b";\n")
}

/// Appends a line for each of these faults, by its index.
pub(crate) fn push_faults(
    text: &mut Vec<u8>,
    plan: &Plan,
    faults: &[JobFault],
) -> Result<(), AllocError>
    ensures { OnOk result (text.new.items ≡ text.old.items ++ fault_lines (plan_of plan.now) 0 faults.now) }
{
    for (k, fault) in faults.iter().enumerate() {
        push_fault_line(text, plan, k, fault)?;
    }
    Ok(())
}
