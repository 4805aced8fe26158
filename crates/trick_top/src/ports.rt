//! The port that words ask for.

ghost use Rattle.std.specs.Prelude.{◌≡◌, IfOk, MatchOption};
ghost use Rattle.trick_top.specs.Ports.{AsksForNoPort, AsksForPort};
ghost use Rattle.trick_top.specs.Ports.{port_of as port_of_command, port_of_task as port_of_this};

use std::alloc::{AllocError, Global};
use trick_base::Word;
use trick_top_words::{Command, Task, laws, read_command};

/// The port of a task.
fn port_of_task(task: &Task) -> Option<u16>
    ensures { result ≡ port_of_this task.now }
{
    match task {
        Task::Run { port } => *port,
        Task::Serial | Task::Replay { .. } | Task::Check | Task::List => None,
    }
}

/// The port that a command names.
fn port_of(command: &Command) -> Option<u16>
    ensures { result ≡ port_of_command command.now }
{
    match command {
        Command::Texts(about) => port_of_task(&about.task),
        Command::Gen { .. } => None,
    }
}

/// The port at which the words of a command line ask for clients, from 1 to 65535: that of a right `run` with `--port`.
/// The words come without the program's name. The error is want of memory.
pub fn port_wanted(alloc: Global, words: &[Word]) -> Result<Option<u16>, AllocError>
    ensures { IfOk result (λ port. MatchOption port (AsksForNoPort words.now) (AsksForPort words.now)) }
{
    laws::one_command();
    match read_command(alloc, words)? {
        Some(command) => Ok(port_of(&command)),
        None => Ok(None),
    }
}
