//! What words ask for.

ghost use Rattle.std.specs.Prelude.{◌≡◌, IfOk, MatchOption, false, true};
ghost use Rattle.trick_top_alone.specs.Words.{AreRefused, Asks, AsksNoRun, AsksToRun, has_command, has_task, without_run};
ghost use Rattle.trick_top_words.specs.declared.command.Command.TheVariants as commands;

use std::alloc::{AllocError, Global};
use trick_base::Word;
use trick_top_words::{Command, Task, Texts, laws, read_command};

/// Whether no threads are needed for a task.
fn is_alone(task: &Task) -> bool
    ensures { result ≡ has_task false task.now }
{
    match task {
        Task::Run { .. } => false,
        Task::Serial | Task::Replay { .. } | Task::Check | Task::List => true,
    }
}

/// A command, where no threads are needed for it.
fn alone(command: Command) -> Option<Command>
    ensures { MatchOption result (has_command false command ≡ false)
        (λ known. (known ≡ command) × (has_command false command ≡ true)) }
{
    if let Command::Texts(about) = &command {
        if !is_alone(&about.task) {
            return None;
        }
    }
    Some(command)
}

/// What is run by threads, where a command asks for it.
fn threaded(command: Command) -> Option<Texts>
    ensures { MatchOption result (has_command false command ≡ true)
        (λ about. (command ≡ commands.Texts about) × (has_task false about.task ≡ false)) }
{
    match command {
        Command::Texts(about) => {
            if is_alone(&about.task) {
                None
            } else {
                Some(about)
            }
        }
        Command::Gen { .. } => None,
    }
}

/// What the words ask to run by threads, the program's name left out.
pub fn read_run(alloc: Global, words: &[Word]) -> Result<Option<Texts>, AllocError>
    ensures { IfOk result (λ asked. MatchOption asked (AsksNoRun words.now) (AsksToRun words.now)) }
{
    laws::one_command();
    match read_command(alloc, words)? {
        Some(command) => Ok(threaded(command)),
        None => Ok(None),
    }
}

/// What the words ask for without threads, the program's name left out.
pub(crate) fn read_words(alloc: Global, words: &[Word]) -> Result<Option<Command>, AllocError>
    ensures { IfOk result (λ asked. MatchOption asked (AreRefused (without_run words.now))
        (Asks (without_run words.now))) }
{
    laws::one_command();
    match read_command(alloc, words)? {
        Some(command) => Ok(alone(command)),
        None => Ok(None),
    }
}
