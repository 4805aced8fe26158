//! What the words of a call say. The jobs of a plan have the letters A, B, .. in their order. A list of steps is a
//! word: a capital letter takes a job, and the small letter commits it.

use crate::words::DueJob;
use crate::yardstick::{Drawing, Form};
use std::alloc::{AllocError, Global};

/// A call with the plan of the texts `s_define` and `input`.
#[derive(Clone, Copy)]
pub(crate) enum Call<'a> {
    /// Plays a list of steps in a tic.
    Play {
        tic: u64,
        word: &'a str,
    },
    /// Plays all schedules of a tic with these due jobs.
    PlayAll {
        tic: u64,
        due: &'a str,
    },
    /// Plays each beginning of these schedules, and each of them with a wrong one of these steps after it.
    PlayWrong {
        tic: u64,
        letters: &'a str,
        due: &'a str,
    },
    /// Runs the due jobs of a tic in key order, as a single phase.
    OnePhase {
        tic: u64,
    },
    /// The same by a board and one bench.
    OneBench {
        tic: u64,
    },
    /// Carries the job of a letter by a bench, with this phase.
    Bench {
        phase: u64,
        letter: u8,
    },
    /// Does the acts of the text of this name on a new board.
    Acts {
        name: &'a str,
    },
}

/// What the words of a call say.
#[derive(Clone, Copy)]
pub(crate) enum Directive<'a> {
    /// A call is made with the plan of the texts.
    Planned(Call<'a>),
    /// A form is compared with its plain one, on plans that are drawn.
    Drawn(Drawing),
    /// Words of no form.
    Unknown,
}

// The first letter of a word.
fn first_letter(word: &str) -> u8 {
    match word.as_bytes() {
        [letter, ..] => *letter,
        [] => b'A',
    }
}

// A due job: a letter, and after `:` those of its predecessors.
fn due_job(word: &str) -> DueJob {
    let (letter, predecessors) = word.split_once(":").unwrap_or((word, ""));
    DueJob {
        letter: first_letter(letter),
        predecessors,
    }
}

/// The due jobs of some words.
pub(crate) fn due_jobs(alloc: Global, words: &str) -> Result<Vec<DueJob>, AllocError> {
    let mut due = Vec::new(alloc);
    for word in words.split_whitespace() {
        due.push(due_job(word))?;
    }
    Ok(due)
}

/// The number of a word.
pub(crate) fn number(word: &str) -> Option<u64> {
    word.parse::<u64>().ok()
}

/// The first word of a text, and what stands after it.
pub(crate) fn first_word(text: &str) -> (&str, &str) {
    text.split_once(" ").unwrap_or((text, ""))
}

// The call that plays wrong lists: the letters that are tried, and then the due jobs.
fn wrong_call(tic: u64, words: &str) -> Call {
    let (letters, due) = first_word(words);
    Call::PlayWrong { tic, letters, due }
}

// The call of a name, a number and what stands after these.
fn numbered<'a>(name: &str, number: u64, behind: &'a str) -> Option<Call<'a>> {
    match name {
        "play" => Some(Call::Play {
            tic: number,
            word: behind,
        }),
        "play_all" => Some(Call::PlayAll {
            tic: number,
            due: behind,
        }),
        "play_wrong" => Some(wrong_call(number, behind)),
        "one_phase" if behind.is_empty() => Some(Call::OnePhase { tic: number }),
        "one_bench" if behind.is_empty() => Some(Call::OneBench { tic: number }),
        "bench" => Some(Call::Bench {
            phase: number,
            letter: first_letter(behind),
        }),
        _ => None,
    }
}

// The call of a name and what stands after it.
fn call_of<'a>(name: &str, words: &'a str) -> Option<Call<'a>> {
    if name == "acts" {
        return Some(Call::Acts { name: words });
    }
    let (first, behind) = first_word(words);
    numbered(name, number(first)?, behind)
}

// The form of a name.
fn form_of(name: &str) -> Option<Form> {
    match name {
        "drawn_queues" => Some(Form::Queues),
        "drawn_boards" => Some(Form::Board),
        _ => None,
    }
}

// The plans that are drawn for a form: the number that they follow from, and how many they are.
fn drawing(form: Form, words: &str) -> Option<Drawing> {
    let (seed, count) = first_word(words);
    let seed = number(seed)?;
    let count = number(count)?;
    Some(Drawing { form, seed, count })
}

// The call of a name and what stands after it, or the drawing of plans.
fn read_words<'a>(name: &str, words: &'a str) -> Option<Directive<'a>> {
    match form_of(name) {
        Some(form) => Some(Directive::Drawn(drawing(form, words)?)),
        None => Some(Directive::Planned(call_of(name, words)?)),
    }
}

/// What the words of a call say.
pub(crate) fn directive_of(line: &str) -> Directive {
    let (name, words) = first_word(line);
    match read_words(name, words) {
        Some(directive) => directive,
        None => Directive::Unknown,
    }
}
