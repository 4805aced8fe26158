// The command that words ask for.

ghost use Rattle.std.specs.Prelude.{◌≡◌, IfOk, MatchOption, Some, map};
ghost use Rattle.std.specs.List.{All};
ghost use Rattle.std.specs.Str.{IsUtf8};
ghost use Rattle.trick_top_words.specs.Command.{AreRefused, Asks, HasRest, kind_of_task};
ghost use Rattle.trick_top_words.specs.Fields.{HasPlaces, HasTwo, IsFound, IsGiven, IsNone, IsNoneFound, IsOf, IsWhole};
ghost use Rattle.trick_top_words.specs.Reads.{text_of, values_of};
ghost use Rattle.trick_top_words.specs.declared.Kind.TheVariants as kind;

use crate::Kind;
use crate::command_line::{kind_of, read};
use crate::number::number;
use clap::ArgMatches;
use std::alloc::{AllocError, Global};
use trick_base::Word;

/// What the words of a command line ask for.
#[derive(Debug, Drop)]
pub enum Command {
    /// Something about the texts of a simulation, which are in named files.
    Texts(Texts),
    /// Writes and runs a simulation of this many objects, from 1 to 100.
    Gen { objects: u32 },
}

/// What is done with the texts of a simulation, and the names of their files.
#[derive(Debug, Drop)]
pub struct Texts {
    pub task: Task,
    pub s_define: Word,
    pub input: Word,
    /// The checkpoint from which a run goes on; `check` and `list` name none.
    pub from: Option<Word>,
}

/// What is done with the texts of a simulation.
#[derive(Debug, Drop)]
pub enum Task {
    /// The run on one thread, without clients.
    Serial,
    /// The run with threads, and with clients where a port is given, from 1 to 65535.
    Run { port: Option<u16> },
    /// The run on one thread under the journal of this name.
    Replay { journal: Word },
    /// Accepts or refuses the simulation.
    Check,
    /// Lists its cells.
    List,
}

/// The words as texts, where all are UTF-8.
fn as_texts(alloc: Global, words: &[Word]) -> Result<Option<Vec<&str>>, AllocError>
    ensures { IfOk result (λ texts. MatchOption texts (All IsUtf8 words.now → ⊥)
        (λ texts. All IsUtf8 words.now × (map (λ text. text.now) texts.items ≡ words.now))) }
{
    let mut texts = Vec::with_capacity(alloc, words.len())?;
    for word in words {
        let Ok(text) = str::from_utf8(word.as_slice()) else {
            return Ok(None);
        };
        texts.push(text)?;
    }
    Ok(Some(texts))
}

/// The value of a place, which is given.
fn word(alloc: Global, value: Option<&str>) -> Result<Word, AllocError>
    requires { IsGiven (text_of value) }
    ensures { IfOk result (λ word. text_of value.entry ≡ Some word) }
{
    Word::from_bytes(alloc, value.unwrap().as_bytes())
}

/// The value of an option, where it is given.
fn word_if_given(alloc: Global, value: Option<&str>) -> Result<Option<Word>, AllocError>
    ensures { IfOk result (λ word. text_of value.entry ≡ word) }
{
    match value {
        Some(text) => Ok(Some(Word::from_bytes(alloc, text.as_bytes())?)),
        None => Ok(None),
    }
}

/// This task with the names of the two texts, and of the checkpoint where it is given.
fn texts_of(
    alloc: Global,
    found: &ArgMatches<'_>,
    from: Option<&str>,
    task: Task,
) -> Result<Command, AllocError>
    requires two { HasTwo (values_of found.now) }
    requires rest { HasRest (values_of found.now) (text_of from) task }
    ensures { IfOk result (IsOf (kind_of_task task) (values_of found.now)) }
{
    let s_define = word(alloc, found.get_str("S_DEFINE"))?;
    let input = word(alloc, found.get_str("INPUT"))?;
    let from = word_if_given(alloc, from)?;
    Ok(Command::Texts(Texts {
        task,
        s_define,
        input,
        from,
    }))
}

fn run(alloc: Global, found: &ArgMatches<'_>) -> Result<Option<Command>, AllocError>
    requires { HasPlaces kind.Run (values_of found.now) }
    ensures { IfOk result (λ command. MatchOption command (IsNone kind.Run (values_of found.now))
        (IsOf kind.Run (values_of found.now))) }
{
    let port = match found.get_str("port") {
        Some(digits) => match number(digits, 5, 65535) {
            Some(number) => Some(number as u16),
            None => return Ok(None),
        },
        None => None,
    };
    let command = texts_of(alloc, found, found.get_str("from"), Task::Run { port })?;
    Ok(Some(command))
}

fn replay(alloc: Global, found: &ArgMatches<'_>) -> Result<Command, AllocError>
    requires { HasPlaces kind.Replay (values_of found.now) }
    ensures { IfOk result (IsOf kind.Replay (values_of found.now)) }
{
    let journal = word(alloc, found.get_str("JOURNAL"))?;
    texts_of(
        alloc,
        found,
        found.get_str("from"),
        Task::Replay { journal },
    )
}

fn generate(found: &ArgMatches<'_>) -> Option<Command>
    requires { HasPlaces kind.Gen (values_of found.now) }
    ensures { MatchOption result (IsNone kind.Gen (values_of found.now)) (IsOf kind.Gen (values_of found.now)) }
{
    let objects = number(found.get_str("N").unwrap(), 3, 100)?;
    Some(Command::Gen { objects })
}

/// What a command asks for with what was found below its name, where its numbers are right.
fn command_by(
    alloc: Global,
    kind: Kind,
    found: &ArgMatches<'_>,
) -> Result<Option<Command>, AllocError>
    requires { HasPlaces kind (values_of found.now) }
    ensures { IfOk result (λ command. MatchOption command (IsNone kind (values_of found.now))
        (IsOf kind (values_of found.now))) }
{
    let command = match kind {
        Kind::Serial => texts_of(alloc, found, found.get_str("from"), Task::Serial)?,
        Kind::Run => return run(alloc, found),
        Kind::Replay => replay(alloc, found)?,
        Kind::Check => texts_of(alloc, found, None, Task::Check)?,
        Kind::List => texts_of(alloc, found, None, Task::List)?,
        Kind::Gen => return Ok(generate(found)),
    };
    Ok(Some(command))
}

/// The command that a line asks for, by what `clap` found in it.
fn command_of(alloc: Global, matches: &ArgMatches<'_>) -> Result<Option<Command>, AllocError>
    requires { IsWhole matches.now }
    ensures { IfOk result (λ command. MatchOption command (IsNoneFound matches.now) (IsFound matches.now)) }
{
    let name = matches.subcommand_name().unwrap();
    let kind = kind_of(name).unwrap();
    let found = matches.subcommand_matches(name).unwrap();
    command_by(alloc, kind, found)
}

/// The command that these words ask for, or `None` where they ask for none. The words come without
/// the program's name; docs/RULES.md says which words are which command.
pub fn read_command(alloc: Global, words: &[Word]) -> Result<Option<Command>, AllocError>
    ensures { IfOk result (λ command. MatchOption command (AreRefused words.now) (Asks words.now)) }
{
    let Some(texts) = as_texts(alloc, words)? else {
        return Ok(None);
    };
    match read(alloc, &texts)? {
        Some(matches) => command_of(alloc, &matches),
        None => Ok(None),
    }
}
