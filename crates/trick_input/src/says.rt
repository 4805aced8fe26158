//! What a line says, by the form that it has.

ghost use Rattle.std.specs.Prelude.{◌≡◌, ◌++◌, IfOk, OnOk, neg_ℤ, pos};
ghost use Rattle.trick_input.specs.Says.{bytes_at, form_of, last_of, lexeme_at, literal_at, number_at, path_name, process_of, shown, text_at, time_at};
ghost use Rattle.trick_input.specs.Seen.{all_seen, seen};
ghost use Rattle.trick_text.specs.Tokens.{inner};

use crate::call::{EventForm, Form, GroupForm, JobForm, RunForm, TextForm, Time, VariableForm};
use crate::class::Class;
use crate::form::{Row, Sort, fits};
use crate::lexeme::InputLexeme;
use itoa::Buffer;
use std::alloc::{AllocError, Global};
use trick_base::{Items, Word};
use trick_model::Process;

fn bytes_at<'t>(line: &[InputLexeme<'t>], at: usize) -> &'t [u8]
    ensures { result.now ≡ bytes_at (all_seen line.now) at }
{
    match line.get(at) {
        Some(lexeme) => lexeme.bytes,
        None => &[],
    }
}

fn class_at(line: &[InputLexeme], at: usize) -> Class
    ensures { result ≡ (lexeme_at (all_seen line.now) at).class }
{
    match line.get(at) {
        Some(lexeme) => lexeme.class,
        None => Class::Other,
    }
}

fn number_at(line: &[InputLexeme], at: usize) -> u64
    ensures { result ≡ number_at (all_seen line.now) at }
{
    match line.get(at) {
        Some(lexeme) => lexeme.number,
        None => 0,
    }
}

fn time_at(line: &[InputLexeme], at: usize) -> Time
    ensures { result ≡ time_at (all_seen line.now) at }
{
    match line.get(at) {
        Some(lexeme) => lexeme.time,
        None => Ok(0),
    }
}

// A literal without `-`: `True` is 1 and `False` is 0.
fn literal_at(line: &[InputLexeme], at: usize) -> u64
    ensures { result ≡ literal_at (all_seen line.now) at }
{
    if class_at(line, at).is(Class::True) {
        1
    } else {
        number_at(line, at)
    }
}

// The place of the last token.
fn last_of(line: &[InputLexeme]) -> usize
    ensures { result ≡ last_of (all_seen line.now) }
{
    line.len().saturating_sub(1)
}

fn inner(bytes: &[u8]) -> &[u8]
    ensures { result.now ≡ inner bytes.now }
{
    match bytes {
        [_, inner @ .., _] => inner,
        _ => &[],
    }
}

fn word_at(alloc: Global, line: &[InputLexeme], at: usize) -> Result<Word, AllocError>
    ensures { IfOk result (λ word. word ≡ bytes_at (all_seen line.now) at) }
{
    Word::from_bytes(alloc, bytes_at(line, at))
}

// What stands between the quotes of a string.
fn text_at(alloc: Global, line: &[InputLexeme], at: usize) -> Result<Word, AllocError>
    ensures { IfOk result (λ word. word ≡ text_at (all_seen line.now) at) }
{
    Word::from_bytes(alloc, inner(bytes_at(line, at)))
}

// Adds what a token of a path is in a full name.
fn push_shown(name: &mut Vec<u8>, lexeme: &InputLexeme) -> Result<(), AllocError>
    ensures { OnOk result (name.new.items ≡ name.old.items ++ shown (seen lexeme.now)) }
{
    if fits(Sort::Number, lexeme.class) {
        name.extend_from_slice(Buffer::new().format(lexeme.number).as_bytes())
    } else {
        name.extend_from_slice(lexeme.bytes)
    }
}

// The full name that a line begins with, up to its `=`.
fn path_name(alloc: Global, line: &[InputLexeme]) -> Result<Word, AllocError>
    ensures { IfOk result (λ name. name ≡ path_name (all_seen line.now)) }
{
    let mut name = Vec::new(alloc);
    for lexeme in line {
        if lexeme.class.is(Class::Assign) {
            return Ok(Items::from_vec(name));
        }
        push_shown(&mut name, lexeme)?;
    }
    Ok(Items::from_vec(name))
}

fn process_of(class: Class) -> Process
    ensures { result ≡ process_of class }
{
    if class.is(Class::AsyncType) {
        Process::Async
    } else if class.is(Class::AmfType) {
        Process::MustFinish
    } else {
        Process::Scheduled
    }
}

// A cell gets a number, by the last token of a line.
fn assign(alloc: Global, line: &[InputLexeme]) -> Result<Form, AllocError>
    ensures { IfOk result (λ form. form ≡ Form.Assign (path_name (all_seen line.now))
        (pos (literal_at (all_seen line.now) (last_of (all_seen line.now))))) }
{
    Ok(Form::Assign {
        name: path_name(alloc, line)?,
        number: i128::from(literal_at(line, last_of(line))),
    })
}

// The same with a `-`.
fn assign_minus(alloc: Global, line: &[InputLexeme]) -> Result<Form, AllocError>
    ensures { IfOk result (λ form. form ≡ Form.Assign (path_name (all_seen line.now))
        (neg_ℤ (pos (number_at (all_seen line.now) (last_of (all_seen line.now)))))) }
{
    Ok(Form::Assign {
        name: path_name(alloc, line)?,
        number: -i128::from(number_at(line, last_of(line))),
    })
}

fn depends_on(alloc: Global, line: &[InputLexeme]) -> Result<Form, AllocError>
    ensures { IfOk result (λ form. form ≡ form_of Row.DependsOn (all_seen line.now)) }
{
    Ok(Form::Job(JobForm::DependsOn {
        target: text_at(alloc, line, 4)?,
        instance: number_at(line, 6),
        depended: text_at(alloc, line, 8)?,
        depended_instance: number_at(line, 10),
    }))
}

fn this_own(alloc: Global, line: &[InputLexeme]) -> Result<Form, AllocError>
    ensures { IfOk result (λ form. form ≡ form_of Row.ThisOwn (all_seen line.now)) }
{
    Ok(Form::Variable(VariableForm::ThisOwn {
        variable: word_at(alloc, line, 0)?,
    }))
}

fn set_job(alloc: Global, line: &[InputLexeme], on: bool) -> Result<Form, AllocError>
    ensures { IfOk result (λ form. form ≡ Form.Job (JobForm.SetJob (text_at (all_seen line.now) 4)
        (number_at (all_seen line.now) 6) on)) }
{
    Ok(Form::Job(JobForm::SetJob {
        name: text_at(alloc, line, 4)?,
        instance: number_at(line, 6),
        on,
    }))
}

fn declare(alloc: Global, line: &[InputLexeme]) -> Result<Form, AllocError>
    ensures { IfOk result (λ form. form ≡ form_of Row.Declare (all_seen line.now)) }
{
    Ok(Form::Declare {
        declaration: text_at(alloc, line, 4)?,
    })
}

fn add_read(alloc: Global, line: &[InputLexeme]) -> Result<Form, AllocError>
    ensures { IfOk result (λ form. form ≡ form_of Row.AddRead (all_seen line.now)) }
{
    Ok(Form::Text(TextForm::AddRead {
        time: time_at(line, 4),
        actions: text_at(alloc, line, 6)?,
    }))
}

fn new_group(alloc: Global, line: &[InputLexeme]) -> Result<Form, AllocError>
    ensures { IfOk result (λ form. form ≡ form_of Row.NewGroup (all_seen line.now)) }
{
    Ok(Form::Group(GroupForm::NewGroup {
        variable: word_at(alloc, line, 0)?,
        name: text_at(alloc, line, 6)?,
    }))
}

fn new_event(alloc: Global, line: &[InputLexeme]) -> Result<Form, AllocError>
    ensures { IfOk result (λ form. form ≡ form_of Row.NewEvent (all_seen line.now)) }
{
    Ok(Form::Event(EventForm::NewEvent {
        variable: word_at(alloc, line, 0)?,
        name: text_at(alloc, line, 6)?,
    }))
}

fn set_cycle(alloc: Global, line: &[InputLexeme]) -> Result<Form, AllocError>
    ensures { IfOk result (λ form. form ≡ form_of Row.SetCycle (all_seen line.now)) }
{
    Ok(Form::Variable(VariableForm::SetCycle {
        variable: word_at(alloc, line, 0)?,
        time: time_at(line, 4),
    }))
}

fn add_variable(alloc: Global, line: &[InputLexeme]) -> Result<Form, AllocError>
    ensures { IfOk result (λ form. form ≡ form_of Row.AddVariable (all_seen line.now)) }
{
    Ok(Form::Group(GroupForm::AddVariable {
        variable: word_at(alloc, line, 0)?,
        name: text_at(alloc, line, 4)?,
    }))
}

fn set_group(alloc: Global, line: &[InputLexeme], on: bool) -> Result<Form, AllocError>
    ensures { IfOk result (λ form. form ≡ Form.Group (GroupForm.SetGroup (bytes_at (all_seen line.now) 0) on)) }
{
    Ok(Form::Group(GroupForm::SetGroup {
        variable: word_at(alloc, line, 0)?,
        on,
    }))
}

fn set_changes(alloc: Global, line: &[InputLexeme]) -> Result<Form, AllocError>
    ensures { IfOk result (λ form. form ≡ form_of Row.SetChanges (all_seen line.now)) }
{
    Ok(Form::Group(GroupForm::SetChanges {
        variable: word_at(alloc, line, 0)?,
        changes: class_at(line, 6).is(Class::Changes),
    }))
}

fn add_group(alloc: Global, line: &[InputLexeme]) -> Result<Form, AllocError>
    ensures { IfOk result (λ form. form ≡ form_of Row.AddGroup (all_seen line.now)) }
{
    Ok(Form::Group(GroupForm::AddGroup {
        variable: word_at(alloc, line, 4)?,
    }))
}

fn set_condition(alloc: Global, line: &[InputLexeme]) -> Result<Form, AllocError>
    ensures { IfOk result (λ form. form ≡ form_of Row.SetCondition (all_seen line.now)) }
{
    Ok(Form::Text(TextForm::SetCondition {
        variable: word_at(alloc, line, 0)?,
        condition: text_at(alloc, line, 6)?,
    }))
}

fn set_action(alloc: Global, line: &[InputLexeme]) -> Result<Form, AllocError>
    ensures { IfOk result (λ form. form ≡ form_of Row.SetAction (all_seen line.now)) }
{
    Ok(Form::Text(TextForm::SetAction {
        variable: word_at(alloc, line, 0)?,
        number: number_at(line, 4),
        actions: text_at(alloc, line, 6)?,
    }))
}

fn activate(alloc: Global, line: &[InputLexeme]) -> Result<Form, AllocError>
    ensures { IfOk result (λ form. form ≡ form_of Row.Activate (all_seen line.now)) }
{
    Ok(Form::Event(EventForm::Activate {
        variable: word_at(alloc, line, 0)?,
    }))
}

fn add_event(alloc: Global, line: &[InputLexeme]) -> Result<Form, AllocError>
    ensures { IfOk result (λ form. form ≡ form_of Row.AddEvent (all_seen line.now)) }
{
    Ok(Form::Event(EventForm::AddEvent {
        variable: word_at(alloc, line, 4)?,
    }))
}

/// What a line of this form says.
pub fn form_of(alloc: Global, row: Row, line: &[InputLexeme]) -> Result<Form, AllocError>
    ensures { IfOk result (λ form. form ≡ form_of row (all_seen line.now)) }
{
    match row {
        Row::ThisOwn => this_own(alloc, line),
        Row::ThisOwnMinus => this_own(alloc, line),
        Row::Assign => assign(alloc, line),
        Row::AssignMinus => assign_minus(alloc, line),
        Row::TrickAssign => assign(alloc, line),
        Row::TrickAssignMinus => assign_minus(alloc, line),
        Row::TrickIndexed => assign(alloc, line),
        Row::TrickIndexedMinus => assign_minus(alloc, line),
        Row::SoftwareFrame => Ok(Form::Run(RunForm::SoftwareFrame {
            time: time_at(line, 4),
        })),
        Row::Stop => Ok(Form::Run(RunForm::Stop {
            time: time_at(line, 4),
        })),
        Row::TerminateTime => Ok(Form::Run(RunForm::Stop {
            time: time_at(line, 4),
        })),
        Row::Freeze => Ok(Form::Run(RunForm::Freeze)),
        Row::ProcessType => Ok(Form::Run(RunForm::ProcessType {
            thread: number_at(line, 4),
            process: process_of(class_at(line, 8)),
        })),
        Row::AmfCycle => Ok(Form::Run(RunForm::AmfCycle {
            thread: number_at(line, 4),
            time: time_at(line, 6),
        })),
        Row::DependsOn => depends_on(alloc, line),
        Row::SetJob => set_job(alloc, line, literal_at(line, 8) != 0),
        Row::SetJobMinus => set_job(alloc, line, number_at(line, 9) != 0),
        Row::Declare => declare(alloc, line),
        Row::AddRead => add_read(alloc, line),
        Row::NewGroup => new_group(alloc, line),
        Row::NewEvent => new_event(alloc, line),
        Row::SetCycle => set_cycle(alloc, line),
        Row::AddVariable => add_variable(alloc, line),
        Row::Enable => set_group(alloc, line, true),
        Row::Disable => set_group(alloc, line, false),
        Row::SetChanges => set_changes(alloc, line),
        Row::AddGroup => add_group(alloc, line),
        Row::AddGroupBuffer => add_group(alloc, line),
        Row::SetCondition => set_condition(alloc, line),
        Row::SetAction => set_action(alloc, line),
        Row::Activate => activate(alloc, line),
        Row::AddEvent => add_event(alloc, line),
    }
}
