//! All lines of an input, one after another.

ghost use Rattle.std.specs.Prelude.{◌≡◌, OnOk, IfOk, Ok};
ghost use Rattle.trick_plan_variables.specs.Cells.{KeepsRest};
ghost use Rattle.trick_plan_draft.specs.Drafts.{begun};
ghost use Rattle.trick_plan_draft.specs.Jobs.{jobs_of};
ghost use Rattle.trick_plan_draft.specs.Kept.{IsDraftOf, Mirrors};
ghost use Rattle.trick_plan_draft.specs.Laws.{KeepsDeeds};
ghost use Rattle.trick_plan_lines.specs.Deeds.{DeedsStay};
ghost use Rattle.trick_plan_lines.specs.Drafted.{Answers, DoesLine, Drafted};
ghost use Rattle.trick_model.specs.Valid.{IsFrame};

use crate::JoinFault;
use crate::fault::at_line;
use crate::said::{Line, said};
use crate::texts::texts_of;
use crate::times::time_fault;
use std::alloc::Global;
use trick_input::Call;
use trick_lang::Program;
use trick_plan_draft::Draft;
use trick_plan_settings::Settings;

// One line: it is refused, or adds to the draft.
fn add_line(
    alloc: Global,
    program: &mut Program,
    settings: &Settings,
    call: &Call,
    draft: &mut Draft,
) -> Result<(), JoinFault>
    requires frame { IsFrame settings.now.frame }
    requires mirrors { Mirrors program.old draft.old }
    requires right { IsDraftOf (jobs_of program.old) settings.now.threads draft.old }
    ensures line { DoesLine result (jobs_of program.old) settings.now call.now draft.old draft.new }
    ensures rest { KeepsRest program.old program.new }
    ensures mirrors { OnOk result (Mirrors program.new draft.new) }
    ensures right { OnOk result (IsDraftOf (jobs_of program.new) settings.now.threads draft.new) }
    ensures deeds { OnOk result (KeepsDeeds (jobs_of program.old) draft.old draft.new) }
{
    trick_plan_draft::laws::lines_keep();
    trick_plan_draft::laws::declarations_keep();
    trick_plan_draft::laws::declarations_keep_deeds();
    if let Some(fault) = time_fault(call) {
        return Err(JoinFault::Time(fault));
    }
    let line = Line {
        form: &call.form,
        texts: texts_of(alloc, &call.form)?,
    };
    match said(alloc, program, settings, &line, draft) {
        Ok(()) => Ok(()),
        Err(fault) => Err(at_line(call.line, fault)),
    }
}

/// What the lines of an input say of a program, one after another, with the settings of the whole input
/// (`trick_plan_settings::settings_in`). The first line that is refused decides, and the tests of a line go in
/// the order of `JoinFault`. A declaration adds its cells to the program; a refusal may leave cells there.
pub fn draft(
    alloc: Global,
    program: &mut Program,
    settings: &Settings,
    calls: &[Call],
) -> Result<Draft, JoinFault>
    requires frame { IsFrame settings.now.frame }
    ensures draft { Answers (Drafted (jobs_of program.old) settings.now calls.now (begun program.old)) result }
    ensures rest { KeepsRest program.old program.new }
    ensures mirrors { IfOk result (λ draft. Mirrors program.new draft) }
    ensures right { IfOk result (λ draft. IsDraftOf (jobs_of program.new) settings.now.threads draft) }
    ensures deeds { IfOk result (DeedsStay (jobs_of program.old) settings.now calls.now (begun program.old)) }
{
    trick_plan_draft::laws::begins_right();
    crate::laws::lines_answer_one();
    let mut draft = Draft::new(alloc, program)?;
    for call in calls {
        add_line(alloc, program, settings, call, &mut draft)?;
    }
    Ok(draft)
}
