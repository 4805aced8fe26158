//! What the words of a command line ask for, and the texts of a generated simulation.

use crate::call::Call;
use std::alloc::{AllocError, Global};
use trick_base::Word;
use trick_cases_report::Report;
use trick_gen::make;
use trick_top_words::{Command, Task, Texts, read_command};

// Adds a word to others.
fn add_word(alloc: Global, words: &mut Vec<Word>, word: &[u8]) -> Result<(), AllocError> {
    let word = Word::from_bytes(alloc, word)?;
    words.push(word)?;
    Ok(())
}

// The words of a text: one blank stands between two words, and two blanks have an empty word between. A call without a
// text has none.
fn words_of(alloc: Global, call: &Call<'_>) -> Result<Vec<Word>, AllocError> {
    let mut words = Vec::new(alloc);
    if call.has_text {
        for word in call.text.split(|byte| *byte == b' ') {
            add_word(alloc, &mut words, word)?;
        }
    }
    Ok(words)
}

// Adds a name and its value.
fn named(name: &str, value: &Word, report: &mut Report) {
    report.word(name);
    report.bytes(value.as_slice());
}

// The word that names what is done with texts.
fn name_of(task: &Task) -> &'static str {
    match task {
        Task::Serial => "serial",
        Task::Run { .. } => "run",
        Task::Replay { .. } => "replay",
        Task::Check => "check",
        Task::List => "list",
    }
}

// Adds the checkpoint from which a run goes on, where there is one.
fn from(from: &Option<Word>, report: &mut Report) {
    if let Some(name) = from {
        named(" from=", name, report);
    }
}

// Adds the name of the journal of a replay.
fn journal(task: &Task, report: &mut Report) {
    if let Task::Replay { journal } = task {
        named(" journal=", journal, report);
    }
}

// Adds the port of a run, where there is one.
fn port(task: &Task, report: &mut Report) {
    if let Task::Run { port: Some(port) } = task {
        report.number(" port=", u64::from(*port), "");
    }
}

// Adds what is done with texts, and the names of their files.
fn about(about: &Texts, report: &mut Report) {
    report.word(name_of(&about.task));
    named(" s_define=", &about.s_define, report);
    named(" input=", &about.input, report);
    journal(&about.task, report);
    from(&about.from, report);
    port(&about.task, report);
}

// Adds a command with its files and numbers.
fn told(command: &Command, report: &mut Report) {
    match command {
        Command::Texts(texts) => about(texts, report),
        Command::Gen { objects } => report.number("gen objects=", u64::from(*objects), ""),
    }
}

/// The command that words ask for.
pub(crate) fn command_of(
    alloc: Global,
    call: &Call<'_>,
    report: &mut Report,
) -> Result<(), AllocError> {
    let words = words_of(alloc, call)?;
    match read_command(alloc, &words)? {
        Some(command) => told(&command, report),
        None => report.word("no command"),
    }
    Ok(())
}

// Adds the lines of a text, each with a mark before it.
fn lines(mark: &str, text: &[u8], report: &mut Report) {
    for line in text.split(|byte| *byte == b'\n') {
        report.word(mark);
        report.bytes(line);
        report.word("\n");
    }
}

/// The texts of a simulation with so many objects.
pub(crate) fn gen_of(
    alloc: Global,
    call: &Call<'_>,
    report: &mut Report,
) -> Result<(), AllocError> {
    let made = make(alloc, (call.number(0) % 101) as u32)?;
    lines("s_define | ", &made.definition, report);
    lines("input | ", &made.input, report);
    Ok(())
}
