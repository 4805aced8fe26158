//! The start of a run.

ghost use Rattle.std.specs.Prelude.{◌≡◌, [], IfOk, map, None};
ghost use Rattle.trick_phase_jobs.specs.Belongs.{IsMemoryOf};
ghost use Rattle.trick_model.specs.Beside.{zeros};
ghost use Rattle.trick_model.specs.Plan.{threads_beside};
ghost use Rattle.trick_model.specs.PlanOf.{plan_of};
ghost use Rattle.trick_model.specs.Run.{assigned, empty, start as start_of};
ghost use Rattle.trick_model.specs.State.{nothing_taken, seen};
ghost use Rattle.trick_model.specs.declared.group.Group.{Group as GroupValue};
ghost use Rattle.trick_model.specs.declared.thread.Thread.{Thread as ThreadValue};

use crate::class_jobs::run_class;
use crate::freeze::freeze_if_asked;
use std::alloc::{AllocError, Global};
use trick_base::Items;
use trick_eval::Bench;
use trick_lang::{Cell, Cells, Class};
use trick_model::{Accepted, Faults, Flags, Group, Mode, Plan, State, Taken};

// Gives every cell the number 0.
fn clear<M: Cells>(plan: &Plan, memory: &mut M)
    requires { IsMemoryOf plan.now.program (M.numbers memory.old) (M.scalars memory.old) }
    ensures zeros { M.numbers memory.new ≡ zeros (plan_of plan.now) }
    ensures memory { IsMemoryOf plan.now.program (M.numbers memory.new) (M.scalars memory.new) }
{
    for cell in 0..memory.len() {
        memory.set(Cell(cell), 0);
    }
}

// Does the assignments of the input, in the order of their lines.
fn assign<M: Cells>(plan: &Plan, memory: &mut M)
    requires { IsMemoryOf plan.now.program (M.numbers memory.old) (M.scalars memory.old) }
    ensures assigned { M.numbers memory.new ≡ assigned plan.now.assigns (M.numbers memory.old) }
    ensures memory { IsMemoryOf plan.now.program (M.numbers memory.new) (M.scalars memory.new) }
{
    for (cell, number) in plan.assigns.as_slice() {
        memory.set(*cell, *number);
    }
}

// The same flags.
fn copy(alloc: Global, flags: &Flags) -> Result<Flags, AllocError>
    ensures { IfOk result (λ copy. copy ≡ flags.now) }
{
    let on = flags.on.as_slice().to_vec(alloc)?;
    Ok(Flags {
        on: Items::from_vec(on),
    })
}

// For each group that it has no last row.
fn no_rows(alloc: Global, groups: &[Group]) -> Result<Items<Option<Items<i64>>>, AllocError>
    ensures { IfOk result (λ rows. rows ≡ map (λ (group : GroupValue). None) groups.now) }
{
    let mut rows = Vec::new(alloc);
    for _group in groups {
        rows.push(None)?;
    }
    Ok(Items::from_vec(rows))
}

// A record of which nothing is held.
fn nothing(alloc: Global) -> Taken
    ensures { result ≡ nothing_taken }
{
    Taken {
        held: false,
        cells: Items::new(alloc),
        on: Flags {
            on: Items::new(alloc),
        },
    }
}

// For each thread beside the tics that it holds nothing.
fn no_records(alloc: Global, plan: &Plan) -> Result<Items<Taken>, AllocError>
    ensures { IfOk result (λ records. records ≡ map (λ (thread : ThreadValue). nothing_taken)
        (threads_beside (plan_of plan.now))) }
{
    let mut records = Vec::new(alloc);
    for thread in plan.threads.as_slice() {
        if thread.process.is_beside() {
            records.push(nothing(alloc))?;
        }
    }
    Ok(Items::from_vec(records))
}

// A state before anything is done: all cells are 0, and flags and limit are those of the input.
fn empty<M: Cells + Drop>(alloc: Global, plan: &Plan, memory: M) -> Result<State<M>, AllocError>
    requires { IsMemoryOf plan.now.program (M.numbers memory) (M.scalars memory) }
    ensures empty { IfOk result (λ state. seen M.numbers state ≡ empty (plan_of plan.now)) }
    ensures memory { IfOk result (λ state. IsMemoryOf plan.now.program (M.numbers state.memory)
        (M.scalars state.memory)) }
{
    let mut memory = memory;
    clear(plan, &mut memory);
    Ok(State {
        turn: 0,
        tic: 0,
        limit: plan.limit,
        mode: Mode::Run,
        memory,
        jobs: copy(alloc, &plan.jobs)?,
        events: copy(alloc, &plan.events_on)?,
        groups: copy(alloc, &plan.groups_on)?,
        last: no_rows(alloc, plan.groups.as_slice())?,
        taken: no_records(alloc, plan)?,
        faults: Faults::new(alloc)?,
    })
}

/// The state in which a run starts: all cells are 0; the default_data jobs run, then the assignments of
/// the input are done, and then the initialization jobs run. Where the input asks for it, Freeze is
/// entered at once. The memory has the plan's cells; what they hold does not matter. The only refusal
/// is for want of memory.
pub fn start<M: Cells + Drop>(
    alloc: Global,
    accepted: &Accepted,
    memory: M,
) -> Result<State<M>, AllocError>
    requires { IsMemoryOf accepted.now.plan.program (M.numbers memory) (M.scalars memory) }
    ensures started { IfOk result (λ state. seen M.numbers state ≡ start_of (plan_of accepted.now.plan)) }
    ensures memory { IfOk result (λ state. IsMemoryOf accepted.now.plan.program (M.numbers state.memory)
        (M.scalars state.memory)) }
{
    let plan = accepted.plan();
    let mut bench = Bench::of(alloc, &plan.program, accepted.accesses())?;
    let mut state = empty(alloc, plan, memory)?;
    run_class(plan, Class::DefaultData, &mut state, &mut bench);
    assign(plan, &mut state.memory);
    run_class(plan, Class::Initialization, &mut state, &mut bench);
    freeze_if_asked(plan, plan.frozen, &mut state, &mut bench);
    Ok(state)
}
