//! The jobs of a constructor.

ghost use Rattle.std.specs.Prelude.{◌≡◌, [], map};
ghost use Rattle.trick_body_symbols.specs.Symbols.{number_of};
ghost use Rattle.trick_grammar.specs.Gives.{Gives, class_of};
ghost use Rattle.trick_grammar.specs.Reading.{read};
ghost use Rattle.trick_grammar.specs.Grammar.{repetition};
ghost use Rattle.trick_sdef_jobs.specs.Jobs.{called, cycle, every, job, job_class_of, other_class, phase, phase_part, scheduled_class, span, thread, thread_part, tics_of, time, timed, times};
ghost use Rattle.trick_sdef_jobs.specs.Trees.{job_line_of, times_of};

use std::alloc::Global;
use trick_base::TIC_LIMIT;
use trick_body_symbols::{NAMES, PHASE_LIMIT, Source, Symbol, Token, name_of};
use trick_grammar::{GrammarStop, Refusal, next_is, next_is_one_of, reason_at, take, take_one_of};
use trick_lang::Class;
use trick_lang::syntax::JobLine;

// The phase of a job that names none.
const DEFAULT_PHASE: u32 = 60_000;

// The classes other than that of scheduled jobs.
const OTHER_CLASSES: [Symbol; 9] = [
    Symbol::DefaultData,
    Symbol::Initialization,
    Symbol::TopOfFrame,
    Symbol::EndOfFrame,
    Symbol::Freeze,
    Symbol::Unfreeze,
    Symbol::Checkpoint,
    Symbol::Restart,
    Symbol::Shutdown,
];

// Strings that are no class, and the other classes.
const NOT_SCHEDULED: [Symbol; 11] = [
    Symbol::KnownFile,
    Symbol::Text,
    Symbol::DefaultData,
    Symbol::Initialization,
    Symbol::TopOfFrame,
    Symbol::EndOfFrame,
    Symbol::Freeze,
    Symbol::Unfreeze,
    Symbol::Checkpoint,
    Symbol::Restart,
    Symbol::Shutdown,
];

// Each string.
const STRINGS: [Symbol; 12] = [
    Symbol::Scheduled,
    Symbol::KnownFile,
    Symbol::Text,
    Symbol::DefaultData,
    Symbol::Initialization,
    Symbol::TopOfFrame,
    Symbol::EndOfFrame,
    Symbol::Freeze,
    Symbol::Unfreeze,
    Symbol::Checkpoint,
    Symbol::Restart,
    Symbol::Shutdown,
];

const BAD_TIMES: [Symbol; 2] = [Symbol::Huge, Symbol::BadDecimal];

const ZERO_TIMES: [Symbol; 3] = [Symbol::Zero, Symbol::LongZero, Symbol::DecimalZero];

const POSITIVE_TIMES: [Symbol; 4] = [Symbol::One, Symbol::Small, Symbol::Large, Symbol::Decimal];

const TIMES: [Symbol; 7] = [
    Symbol::Zero,
    Symbol::LongZero,
    Symbol::DecimalZero,
    Symbol::One,
    Symbol::Small,
    Symbol::Large,
    Symbol::Decimal,
];

// Each number.
const NUMBERS: [Symbol; 9] = [
    Symbol::Huge,
    Symbol::BadDecimal,
    Symbol::Zero,
    Symbol::LongZero,
    Symbol::DecimalZero,
    Symbol::One,
    Symbol::Small,
    Symbol::Large,
    Symbol::Decimal,
];

// What a job begins with.
const JOB_BEGINNINGS: [Symbol; 5] = [
    Symbol::Thread,
    Symbol::OtherThread,
    Symbol::Phase,
    Symbol::OtherPhase,
    Symbol::OpenParen,
];

/// What stands in the parentheses of a job, in tics.
#[derive(Clone, Copy, Debug)]
pub struct Times {
    pub class: Class,
    pub start: u64,
    pub cycle: u64,
    pub stop: u64,
}

// The class of a string that names one.
fn job_class_of(string: Symbol) -> Class
    ensures { result ≡ job_class_of string }
{
    match string {
        Symbol::DefaultData => Class::DefaultData,
        Symbol::Initialization => Class::Initialization,
        Symbol::TopOfFrame => Class::TopOfFrame,
        Symbol::EndOfFrame => Class::EndOfFrame,
        Symbol::Freeze => Class::Freeze,
        Symbol::Unfreeze => Class::Unfreeze,
        Symbol::Checkpoint => Class::Checkpoint,
        Symbol::Restart => Class::Restart,
        Symbol::Shutdown => Class::Shutdown,
        _ => Class::Scheduled,
    }
}

// The tics of a time.
fn tics_of(time: &Token) -> u64
    ensures { result ≡ tics_of time.now }
{
    match time.class {
        Symbol::Decimal => time.number,
        Symbol::DecimalZero => 0,
        _ => time.number.saturating_mul(1_000_000),
    }
}

// TIME
#[tactic(auto, unfolding(crate::specs::Jobs::time_body))]
fn take_time(rest: &[Token]) -> Result<(&Token, &[Token]), GrammarStop<Symbol>>
    ensures { Gives (λ x. (x.0.now, x.1.now)) result (read number_of class_of [] time rest.now) }
{
    if next_is_one_of(rest, &BAD_TIMES) {
        let reason = reason_at(rest, Refusal::BadTime, &BAD_TIMES);
        return Err(GrammarStop::At(reason, rest));
    }
    take_one_of(rest, &TIMES)
}

// TIME, as a cycle: not 0.
#[tactic(auto, unfolding(crate::specs::Jobs::cycle_body))]
fn take_cycle(rest: &[Token]) -> Result<(&Token, &[Token]), GrammarStop<Symbol>>
    ensures { Gives (λ x. (x.0.now, x.1.now)) result (read number_of class_of [] cycle rest.now) }
{
    if next_is_one_of(rest, &BAD_TIMES) {
        let reason = reason_at(rest, Refusal::BadTime, &BAD_TIMES);
        return Err(GrammarStop::At(reason, rest));
    }
    if next_is_one_of(rest, &ZERO_TIMES) {
        let reason = reason_at(rest, Refusal::NotInProfile, &ZERO_TIMES);
        return Err(GrammarStop::At(reason, rest));
    }
    take_one_of(rest, &POSITIVE_TIMES)
}

// STRING, after times.
#[tactic(auto, unfolding(crate::specs::Jobs::scheduled_class_body))]
fn take_scheduled(rest: &[Token]) -> Result<(&Token, &[Token]), GrammarStop<Symbol>>
    ensures { Gives (λ x. (x.0.now, x.1.now)) result
        (read number_of class_of [] scheduled_class rest.now) }
{
    if next_is_one_of(rest, &NOT_SCHEDULED) {
        let reason = reason_at(rest, Refusal::NotInProfile, &NOT_SCHEDULED);
        return Err(GrammarStop::At(reason, rest));
    }
    take(rest, Symbol::Scheduled)
}

// STRING, without times.
#[tactic(auto, unfolding(crate::specs::Jobs::other_class_body))]
fn take_other_class(rest: &[Token]) -> Result<(&Token, &[Token]), GrammarStop<Symbol>>
    ensures { Gives (λ x. (x.0.now, x.1.now)) result
        (read number_of class_of [] other_class rest.now) }
{
    let refused = [Symbol::Scheduled, Symbol::KnownFile, Symbol::Text];
    if next_is_one_of(rest, &refused) {
        let reason = reason_at(rest, Refusal::NotInProfile, &refused);
        return Err(GrammarStop::At(reason, rest));
    }
    take_one_of(rest, &OTHER_CLASSES)
}

// TIME ",", as a start or a stop.
#[tactic(auto, unfolding(crate::specs::Jobs::timed_body))]
fn read_timed(rest: &[Token]) -> Result<(u64, &[Token]), GrammarStop<Symbol>>
    ensures { Gives (λ x. (x.0, x.1.now)) result (read number_of class_of [] timed rest.now) }
{
    let (time, rest) = take_time(rest)?;
    let (_, rest) = take(rest, Symbol::Comma)?;
    Ok((tics_of(time), rest))
}

// TIME ",", as a cycle.
#[tactic(auto, unfolding(crate::specs::Jobs::every_body))]
fn read_every(rest: &[Token]) -> Result<(u64, &[Token]), GrammarStop<Symbol>>
    ensures { Gives (λ x. (x.0, x.1.now)) result (read number_of class_of [] every rest.now) }
{
    let (time, rest) = take_cycle(rest)?;
    let (_, rest) = take(rest, Symbol::Comma)?;
    Ok((tics_of(time), rest))
}

// [ TIME "," [ TIME "," ] ]: the start and the stop.
fn read_span(rest: &[Token]) -> Result<((u64, u64), &[Token]), GrammarStop<Symbol>>
    ensures { Gives (λ x. (x.0, x.1.now)) result (read number_of class_of [] span rest.now) }
{
    if !next_is_one_of(rest, &NUMBERS) {
        return Ok(((0, TIC_LIMIT), rest));
    }
    let (start, rest) = read_timed(rest)?;
    if !next_is_one_of(rest, &NUMBERS) {
        return Ok(((start, TIC_LIMIT), rest));
    }
    let (stop, rest) = read_timed(rest)?;
    Ok(((start, stop), rest))
}

// [ times ] STRING
#[tactic(auto, unfolding(crate::specs::Jobs::times_body))]
fn read_times(rest: &[Token]) -> Result<(Times, &[Token]), GrammarStop<Symbol>>
    ensures { Gives (λ x. (times_of x.0, x.1.now)) result (read number_of class_of [] times rest.now) }
{
    if next_is_one_of(rest, &STRINGS) {
        let (string, rest) = take_other_class(rest)?;
        let times = Times {
            class: job_class_of(string.class),
            start: 0,
            cycle: 0,
            stop: 0,
        };
        return Ok((times, rest));
    }
    let (cycle, rest) = read_every(rest)?;
    let ((start, stop), rest) = read_span(rest)?;
    let (_, rest) = take_scheduled(rest)?;
    let times = Times {
        class: Class::Scheduled,
        start,
        cycle,
        stop,
    };
    Ok((times, rest))
}

// C<n>
#[tactic(auto, unfolding(crate::specs::Jobs::thread_body))]
fn take_thread(rest: &[Token]) -> Result<(&Token, &[Token]), GrammarStop<Symbol>>
    ensures { Gives (λ x. (x.0.now, x.1.now)) result (read number_of class_of [] thread rest.now) }
{
    if next_is(rest, Symbol::OtherThread) {
        let reason = reason_at(rest, Refusal::NotInProfile, &[Symbol::OtherThread]);
        return Err(GrammarStop::At(reason, rest));
    }
    take(rest, Symbol::Thread)
}

// P<n>
#[tactic(auto, unfolding(crate::specs::Jobs::phase_body))]
fn take_phase(rest: &[Token]) -> Result<(&Token, &[Token]), GrammarStop<Symbol>>
    ensures { Gives (λ x. (x.0.now, x.1.now)) result (read number_of class_of [] phase rest.now) }
{
    if next_is(rest, Symbol::OtherPhase) {
        let reason = reason_at(rest, Refusal::NotInProfile, &[Symbol::OtherPhase]);
        return Err(GrammarStop::At(reason, rest));
    }
    take(rest, Symbol::Phase)
}

// [ C<n> ]
fn read_thread(rest: &[Token]) -> Result<(u8, &[Token]), GrammarStop<Symbol>>
    ensures { Gives (λ x. (x.0, x.1.now)) result (read number_of class_of [] thread_part rest.now) }
{
    if next_is_one_of(rest, &[Symbol::OtherThread, Symbol::Thread]) {
        let (thread, rest) = take_thread(rest)?;
        return Ok((thread.number.min(15) as u8, rest));
    }
    Ok((0, rest))
}

// [ P<n> ]
fn read_phase(rest: &[Token]) -> Result<(u32, &[Token]), GrammarStop<Symbol>>
    ensures { Gives (λ x. (x.0, x.1.now)) result (read number_of class_of [] phase_part rest.now) }
{
    if next_is_one_of(rest, &[Symbol::OtherPhase, Symbol::Phase]) {
        let (phase, rest) = take_phase(rest)?;
        return Ok((phase.number.min(PHASE_LIMIT) as u32, rest));
    }
    Ok((DEFAULT_PHASE, rest))
}

// NAME "(" ")" ";"
#[tactic(auto, unfolding(crate::specs::Jobs::called_body))]
fn read_called(rest: &[Token]) -> Result<(&Token, &[Token]), GrammarStop<Symbol>>
    ensures { Gives (λ x. (x.0.now, x.1.now)) result (read number_of class_of [] called rest.now) }
{
    let (name, rest) = take_one_of(rest, &NAMES)?;
    let (_, rest) = take(rest, Symbol::OpenParen)?;
    let (_, rest) = take(rest, Symbol::CloseParen)?;
    let (_, rest) = take(rest, Symbol::Semicolon)?;
    Ok((name, rest))
}

// job = [ C<n> ] [ P<n> ] "(" [ times ] STRING ")" NAME "(" ")" ";"
#[tactic(auto, unfolding(crate::specs::Jobs::job_body))]
fn read_job<'a>(
    alloc: Global,
    source: Source,
    rest: &'a [Token],
) -> Result<(JobLine, &'a [Token]), GrammarStop<'a, Symbol>>
    ensures { Gives (λ x. (job_line_of x.0, x.1.now)) result
        (read number_of class_of [] (job source.entry.text.now) rest.now) }
{
    let (thread, rest) = read_thread(rest)?;
    let (phase, rest) = read_phase(rest)?;
    let (_, rest) = take(rest, Symbol::OpenParen)?;
    let (times, rest) = read_times(rest)?;
    let (_, rest) = take(rest, Symbol::CloseParen)?;
    let (method, rest) = read_called(rest)?;
    let job = JobLine {
        class: times.class,
        thread,
        phase,
        start: times.start,
        cycle: times.cycle,
        stop: times.stop,
        line: method.line,
        method: name_of(alloc, source.text, method)?,
    };
    Ok((job, rest))
}

/// { job }
pub fn read_jobs<'a>(
    alloc: Global,
    source: Source,
    rest: &'a [Token],
) -> Result<(Vec<JobLine>, &'a [Token]), GrammarStop<'a, Symbol>>
    ensures { Gives (λ x. (map job_line_of x.0.items, x.1.now)) result
        (read number_of class_of [] (repetition source.entry.limit (job source.entry.text.now)) rest.now) }
{
    let mut found = Vec::new(alloc);
    let mut left = source.limit;
    let mut rest = rest;
    while next_is_one_of(rest, &JOB_BEGINNINGS) {
        if left == 0 {
            return Err(GrammarStop::At(Refusal::TooLong, rest));
        }
        let (job, after) = read_job(alloc, source, rest)?;
        found.push(job)?;
        rest = after;
        left -= 1;
    }
    Ok((found, rest))
}
