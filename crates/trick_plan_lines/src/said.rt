//! What each line says, by its form.

ghost use Rattle.std.specs.Prelude.{◌≡◌, OnOk, true, false};
ghost use Rattle.trick_plan_variables.specs.Cells.{KeepsRest};
ghost use Rattle.trick_plan_draft.specs.Cells.{AreNumbered};
ghost use Rattle.trick_plan_draft.specs.Jobs.{jobs_of};
ghost use Rattle.trick_plan_draft.specs.Kept.{Mirrors};
ghost use Rattle.trick_plan_draft.specs.Lines.{Did};
ghost use Rattle.trick_plan_draft.specs.declared.draft.Draft.{Draft};
ghost use Rattle.trick_plan_lines.specs.Said.{amf_cycle_line, event_line, frame_line, group_line, is_declaration, job_line, run_line, said, text_line, thread_line, variable_line};
ghost use Rattle.trick_plan_lines.specs.Texts.{texts_in};

use crate::texts::{ReadTexts, actions_of};
use crate::times::tics_of;
use std::alloc::Global;
use trick_input::{EventForm, Form, GroupForm, JobForm, RunForm, TextForm, VariableForm};
use trick_lang::Program;
use trick_plan_draft::{Draft, LineFault, job_of, waiting_job};
use trick_plan_settings::{Settings, is_frame};

// A line with what its texts read as.
#[derive(Drop)]
pub(crate) struct Line<'a> {
    pub form: &'a Form,
    pub texts: ReadTexts,
}

// A frame has from 1 to 10^9 tics.
fn frame_line(tics: u64) -> Result<(), LineFault>
    ensures { (d : Draft) → Did result d (frame_line tics d) }
{
    if is_frame(tics) {
        Ok(())
    } else {
        Err(LineFault::OutOfRange)
    }
}

// Threads go from 0 to 15.
fn thread_line(thread: u64) -> Result<(), LineFault>
    ensures { (d : Draft) → Did result d (thread_line thread d) }
{
    if thread > 15 {
        return Err(LineFault::OutOfRange);
    }
    Ok(())
}

// A cycle has a tic at least.
fn amf_cycle_line(thread: u64, tics: u64) -> Result<(), LineFault>
    ensures { (d : Draft) → Did result d (amf_cycle_line thread tics d) }
{
    if thread > 15 || tics == 0 {
        return Err(LineFault::OutOfRange);
    }
    Ok(())
}

// A line of the run or of its threads, which changes nothing of the draft.
fn run_line(form: &RunForm) -> Result<(), LineFault>
    ensures { (d : Draft) → Did result d (run_line form.now d) }
{
    match form {
        RunForm::SoftwareFrame { time } => frame_line(tics_of(*time)),
        RunForm::Stop { time: _ } => Ok(()),
        RunForm::Freeze => Ok(()),
        RunForm::ProcessType { thread, process: _ } => thread_line(*thread),
        RunForm::AmfCycle { thread, time } => amf_cycle_line(*thread, tics_of(*time)),
    }
}

// A line of jobs, by the threads of the whole input.
fn job_line(
    program: &Program,
    settings: &Settings,
    form: &JobForm,
    draft: &mut Draft,
) -> Result<(), LineFault>
    ensures { Did result draft.new
        (job_line (jobs_of program.now) settings.now.threads form.now draft.old) }
{
    match form {
        JobForm::DependsOn {
            target,
            instance,
            depended,
            depended_instance,
        } => {
            let threads = settings.threads.as_slice();
            let target = waiting_job(program, threads, target, *instance);
            let depended = waiting_job(program, threads, depended, *depended_instance);
            draft.depend(target, depended)
        }
        JobForm::SetJob { name, instance, on } => {
            draft.set_job(job_of(program, name, *instance), *on)
        }
    }
}

// A line of a group.
fn group_line(alloc: Global, form: &GroupForm, draft: &mut Draft) -> Result<(), LineFault>
    ensures { Did result draft.new (group_line form.now draft.old) }
{
    match form {
        GroupForm::NewGroup { variable, name } => draft.new_group(alloc, variable, name),
        GroupForm::AddVariable { variable, name } => draft.add_variable(alloc, variable, name),
        GroupForm::SetGroup { variable, on } => draft.set_group(alloc, variable, *on),
        GroupForm::SetChanges { variable, changes } => {
            draft.set_changes(alloc, variable, *changes)
        }
        GroupForm::AddGroup { variable } => draft.add_group(variable),
    }
}

// A line of an event, by the software frame of the whole input.
fn event_line(
    alloc: Global,
    settings: &Settings,
    form: &EventForm,
    draft: &mut Draft,
) -> Result<(), LineFault>
    ensures { Did result draft.new (event_line settings.now.frame form.now draft.old) }
{
    match form {
        EventForm::NewEvent { variable, name } => {
            draft.new_event(alloc, variable, name, settings.frame)
        }
        EventForm::Activate { variable } => draft.activate(alloc, variable),
        EventForm::AddEvent { variable } => draft.add_event(variable),
    }
}

// A line of a group or an event alike.
fn variable_line(alloc: Global, form: &VariableForm, draft: &mut Draft) -> Result<(), LineFault>
    ensures { Did result draft.new (variable_line form.now draft.old) }
{
    match form {
        VariableForm::SetCycle { variable, time } => {
            draft.set_cycle(alloc, variable, tics_of(*time))
        }
        VariableForm::ThisOwn { variable } => draft.this_own(variable),
    }
}

// A line with actions or a condition.
fn text_line(
    alloc: Global,
    program: &Program,
    form: &TextForm,
    texts: &ReadTexts,
    draft: &mut Draft,
) -> Result<(), LineFault>
    requires numbered { AreNumbered draft.old.cells }
    ensures { Did result draft.new
        (text_line (jobs_of program.now) (texts_in texts.now).condition form.now draft.old) }
{
    match form {
        TextForm::AddRead { time, actions } => {
            let actions = actions_of(alloc, actions)?;
            draft.add_read(alloc, program, tics_of(*time), actions)
        }
        TextForm::SetCondition {
            variable,
            condition: _,
        } => draft.set_condition(alloc, variable, texts.condition.as_ref()),
        TextForm::SetAction {
            variable,
            number,
            actions,
        } => {
            let actions = actions_of(alloc, actions)?;
            draft.set_action(alloc, program, variable, *number, actions)
        }
    }
}

// What a line says: it is refused, or adds to the draft. Only a declaration adds to the program.
pub(crate) fn said(
    alloc: Global,
    program: &mut Program,
    settings: &Settings,
    line: &Line,
    draft: &mut Draft,
) -> Result<(), LineFault>
    requires mirrors { Mirrors program.old draft.old }
    requires numbered { AreNumbered draft.old.cells }
    ensures said { Did result draft.new
        (said (jobs_of program.old) settings.now (texts_in line.now.texts) line.now.form.now draft.old) }
    ensures declared { is_declaration line.now.form.now ≡ true → OnOk result (Mirrors program.new draft.new) }
    ensures other { is_declaration line.now.form.now ≡ false → program.new ≡ program.old }
    ensures rest { KeepsRest program.old program.new }
{
    match line.form {
        Form::Assign { name, number } => draft.assign(name, *number),
        Form::Declare { declaration: _ } => {
            draft.declare(alloc, program, line.texts.declaration.as_ref())
        }
        Form::Run(form) => run_line(form),
        Form::Job(form) => job_line(program, settings, form, draft),
        Form::Group(form) => group_line(alloc, form, draft),
        Form::Event(form) => event_line(alloc, settings, form, draft),
        Form::Variable(form) => variable_line(alloc, form, draft),
        Form::Text(form) => text_line(alloc, program, form, &line.texts, draft),
    }
}
