//! The times of lines.

ghost use Rattle.std.specs.Prelude.{◌≡◌};
ghost use Rattle.trick_plan_lines.specs.Times.{fault_of_time, tics_of, time_fault, time_in};

use trick_base::TIC_LIMIT;
use trick_input::{Call, Form, RunForm, TextForm, Time, VariableForm};
use trick_text::TimeFault;

// The time of a line, where it has one.
fn time_in(form: &Form) -> Option<Time>
    ensures { result ≡ time_in form.now }
{
    match form {
        Form::Run(RunForm::SoftwareFrame { time }) => Some(*time),
        Form::Run(RunForm::Stop { time }) => Some(*time),
        Form::Run(RunForm::AmfCycle { thread: _, time }) => Some(*time),
        Form::Text(TextForm::AddRead { time, actions: _ }) => Some(*time),
        Form::Variable(VariableForm::SetCycle { variable: _, time }) => Some(*time),
        _ => None,
    }
}

// Why a time is none, at its line.
fn fault_of_time(line: u32, time: Option<Time>) -> Option<TimeFault>
    ensures { result ≡ fault_of_time line time }
{
    match time {
        Some(Ok(tics)) if tics <= TIC_LIMIT => None,
        Some(Ok(_)) => Some(TimeFault::TimeTooLarge { line }),
        Some(Err(fault)) => Some(fault),
        None => None,
    }
}

// Why the time of a line is none.
pub(crate) fn time_fault(call: &Call) -> Option<TimeFault>
    ensures { result ≡ time_fault call.now }
{
    fault_of_time(call.line, time_in(&call.form))
}

// The tics of a time.
pub(crate) fn tics_of(time: Time) -> u64
    ensures { result ≡ tics_of time }
{
    time.unwrap_or(0)
}
